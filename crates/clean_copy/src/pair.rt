// The line of a pair of states.
ghost use Rattle.std.specs.Prelude.{◌≡◌, ◌≤◌, length};
ghost use Rattle.decimals.specs.Place.{Room, Wrote};

use decimals::{decimal_length, write_bytes, write_decimal, write_field};

// The rate from one state to another, or to itself.
#[derive(Clone, Copy)]
pub struct Pair {
    pub from: usize,
    pub to: usize,
    pub rate: u64,
}

impl Pair {
    ghost use Rattle.clean_copy.specs.Pair.{text_of};

    // How many bytes its line has, with its line feed; none where it has no rate.
    #[tactic(auto, using(crate::proofs::PairLaw::pair_laws))]
    pub fn length(self) -> usize
        ensures value { result ≡ length (text_of self) }
        ensures within { result ≤ 63 }
    {
        if self.rate == 0 {
            return 0;
        }
        decimal_length(self.from as u64)
            + decimal_length(self.to as u64)
            + decimal_length(self.rate)
            + 3
    }

    // Writes its line; nothing where it has no rate.
    #[tactic(auto, using(crate::proofs::PairLaw::pair_laws))]
    pub fn write(self, out: &mut [u8], at: usize) -> usize
        requires { Room at (text_of self) out.old }
        ensures { Wrote at (text_of self) out.old out.new result }
    {
        if self.rate == 0 {
            return at;
        }
        let second = write_decimal(out, at, self.from as u64);
        let third = write_field(out, second, self.to as u64);
        let end = write_field(out, third, self.rate);
        write_bytes(out, end, b"\n")
    }
}
