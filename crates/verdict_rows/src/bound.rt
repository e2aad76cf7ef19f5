// What a `P` asks of a probability.
ghost use Rattle.std.specs.Prelude.{◌≡◌, ◌≤◌, cond, eqb, ltb};
ghost use Rattle.csl.specs.Limits.{billion};
ghost use Rattle.csl.specs.Lent.{verdict_byte};
ghost use Rattle.csl.specs.Laws.Ruling.{moves_verdict};
ghost use Rattle.verdicts.specs.Paper.{comparison_of};
ghost use Rattle.verdict_rows.specs.Byte.{judged_byte, told_byte, next_byte};

use verdicts::{Comparison, Interval};

// A comparison with a threshold, in billionths. `grammar::Bound` is one as it was read, of any size; this one passed the test of its threshold.
#[derive(Clone, Copy)]
pub struct Bound {
    pub comparison: Comparison,
    pub threshold: u32,
}

impl Bound {
    // The verdict byte of a `P` with these ends.
    #[tactic(auto, unfolding(crate::specs::Byte::judged_byte))]
    pub(crate) fn judge(self, lower: u64, upper: u64) -> u8
        requires { (lower ≤ billion) × (upper ≤ billion) }
        ensures { result ≡ judged_byte (comparison_of self.comparison) self.threshold lower upper }
    {
        let ends = Interval::new(lower as u32, upper as u32);
        u8::from(ends.judge(self.comparison, self.threshold))
    }

    // That of one that the moves decide, from a byte that says whether what the threshold asks for holds: possible with 0, certain with
    // 1,000,000,000.
    #[tactic(auto, unfolding(crate::specs::Byte::told_byte))]
    pub(crate) fn tell(self, byte: u8) -> u8
        ensures { result ≡ told_byte (comparison_of self.comparison) self.threshold byte }
    {
        self.told(verdicts::holds(byte, false))
    }

    // The same over a next move, from its ends.
    #[tactic(auto, using(crate::specs::Byte::next_told), unfolding(crate::specs::Byte::told_byte))]
    pub(crate) fn tell_next(self, lower: u64, upper: u64) -> u8
        ensures { result ≡ told_byte (comparison_of self.comparison) self.threshold (next_byte self.threshold lower upper) }
    {
        self.told(self.holds_next(lower, upper))
    }

    // The verdict byte of one that the moves decide, from whether what the threshold asks for holds.
    fn told(self, holds: bool) -> u8
        ensures { result ≡ verdict_byte (moves_verdict (comparison_of self.comparison) self.threshold holds holds) }
    {
        u8::from(verdicts::by_moves(self.comparison, self.threshold, holds))
    }

    // Whether what the threshold asks for holds of a next move with these ends: they are rounded outwards, so that the upper one is 0 where no move
    // enters the operand, and the lower one 1,000,000,000 where all do.
    fn holds_next(self, lower: u64, upper: u64) -> bool
        ensures { result ≡ cond (eqb self.threshold 0) (ltb 0 upper) (eqb lower billion) }
    {
        if self.threshold == 0 {
            upper != 0
        } else {
            lower == limits::BILLION
        }
    }
}
