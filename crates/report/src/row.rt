// The line of a state.
ghost use Rattle.std.specs.Prelude.{◌≡◌, ◌∷◌, ◌≤◌, length};
ghost use Rattle.csl.specs.Line.{comma};
ghost use Rattle.csl.specs.Report.{verdict_word};
ghost use Rattle.verdicts.specs.Paper.{verdict_of};
ghost use Rattle.decimals.specs.Place.{Room, Wrote};

use decimals::{decimal_length, write_byte, write_bytes, write_decimal, write_field};
use verdicts::Verdict;

// What the line of a state shows: its number, its ends, the depth and its verdict.
#[derive(Clone, Copy)]
pub struct Row {
    pub state: usize,
    pub lower: u32,
    pub upper: u32,
    pub depth: u64,
    pub verdict: Verdict,
}

impl Row {
    ghost use Rattle.report.specs.Line.{text_of};

    // How many bytes the line has.
    pub fn length(self) -> usize
        ensures { result ≡ length (text_of self) }
    {
        let numbers = decimal_length(self.state as u64)
            + decimal_length(self.lower as u64)
            + decimal_length(self.upper as u64)
            + decimal_length(self.depth);
        numbers + word(self.verdict).len() + 4
    }

    // Writes the line at a place of a buffer.
    #[tactic(auto, using(crate::proofs::PartsLaw::row_laws))]
    pub fn write(self, out: &mut [u8], at: usize) -> usize
        requires { Room at (text_of self) out.old }
        ensures { Wrote at (text_of self) out.old out.new result }
    {
        let first = write_decimal(out, at, self.state as u64);
        let second = write_field(out, first, self.lower as u64);
        let third = write_field(out, second, self.upper as u64);
        let fourth = write_field(out, third, self.depth);
        let end = write_bytes(out, fourth, word(self.verdict));
        write_byte(out, end, b'\n')
    }
}

// A comma and a verdict's word, as bytes for a place of a lent buffer, which no `Display` writes to.
fn word(verdict: Verdict) -> &'static [u8]
    ensures is { result.now ≡ comma ∷ verdict_word (verdict_of verdict) }
    ensures few { length result.now ≤ 10 }
{
    match verdict {
        Verdict::No => b",no",
        Verdict::Yes => b",yes",
        Verdict::Undecided => b",undecided",
    }
}
