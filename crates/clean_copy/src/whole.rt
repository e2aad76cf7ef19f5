// The whole copy of a sheet's rates: its first line, and the lines from each state.
ghost use Rattle.std.specs.Prelude.{◌≡◌, length};
ghost use Rattle.decimals.specs.Place.{Room, Wrote};
ghost use Rattle.clean_copy.specs.Rates.{lines_below, copy_of};
ghost use Rattle.clean_copy.specs.Answer.{CopiedAs};

use crate::rates::Rates;
use crate::row::{row_length, write_row};
use limits::MOST_STATES;
use verdicts::Refusal;

// The totals are lent to be worked in, and no part of the rates; so each asks for as many as there are states.
impl Rates<'_> {
    // How many bytes the copy has: 13 for the first line with its line feed, and those of the lines from each state.
    fn copy_length(&self, totals: &mut [u64]) -> usize
        requires { length totals.old ≡ self.now.states }
        ensures { result ≡ length (copy_of self.now) }
    {
        let mut length: usize = 13;
        for s in 0..self.states {
            self.gather(s, totals);
            length += row_length(s, totals);
        }
        length
    }

    // Writes the lines from all states.
    fn write_lines(&self, out: &mut [u8], at: usize, totals: &mut [u64]) -> usize
        requires totals { length totals.old ≡ self.now.states }
        requires room { Room at (lines_below self.now self.now.states) out.old }
        ensures { Wrote at (lines_below self.now self.now.states) out.old out.new result }
    {
        let mut next = at;
        for s in 0..self.states {
            self.gather(s, totals);
            next = write_row(out, next, s, totals);
        }
        next
    }

    // Writes the copy to the front of a buffer that has room for it.
    #[tactic(auto, using(crate::proofs::WholeLaw::copy_laws))]
    fn write_copy(&self, out: &mut [u8], totals: &mut [u64]) -> usize
        requires totals { length totals.old ≡ self.now.states }
        requires room { Room 0 (copy_of self.now) out.old }
        ensures { Wrote 0 (copy_of self.now) out.old out.new result }
    {
        let next = decimals::write_bytes(out, 0, b"from,to,rate\n");
        self.write_lines(out, next, totals)
    }

    // Writes the copy to the front of a buffer and answers how long it is, or leaves the buffer as it was where it is too short.
    #[tactic(auto, using(crate::proofs::AnswerLaw::answer_laws))]
    pub fn copy(&self, out: &mut [u8]) -> Result<usize, Refusal>
        ensures { CopiedAs (copy_of self.now) out.old result out.new }
    {
        let mut words = [0u64; MOST_STATES];
        let totals = &mut words[..self.states];
        if out.len() < self.copy_length(totals) {
            return Err(Refusal::ShortCopy);
        }
        Ok(self.write_copy(out, totals))
    }
}
