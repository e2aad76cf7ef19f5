// What is known of a probability: it lies between two ends, in billionths.
ghost use Rattle.std.specs.Prelude.{◌≡◌};
ghost use Rattle.csl.specs.Verdicts.{judged, judged_at_least, judged_more};
ghost use Rattle.csl.specs.Report.{lower_of, upper_of};
ghost use Rattle.verdicts.specs.Paper.{verdict_of, comparison_of, interval};
ghost use Rattle.verdicts.specs.Byte.{verdict_at};

use crate::comparison::Comparison;
use crate::verdict::Verdict;

// Probability 1, in billionths.
pub const ONE: u32 = limits::BILLION as u32;

// The two ends.
#[derive(Clone, Copy, Debug, PartialEq, Eq)]
pub struct Interval {
    pub lower: u32,
    pub upper: u32,
}

impl Interval {
    // Probability 1.
    pub const CERTAIN: Interval = Interval {
        lower: ONE,
        upper: ONE,
    };

    // Probability 0.
    pub const IMPOSSIBLE: Interval = Interval { lower: 0, upper: 0 };

    // Any probability.
    const UNKNOWN: Interval = Interval {
        lower: 0,
        upper: ONE,
    };

    // The interval with these ends.
    pub fn new(lower: u32, upper: u32) -> Interval
        ensures { result ≡ interval lower upper }
    {
        Interval { lower, upper }
    }

    // The interval that a verdict byte alone stands for: a report's for an outermost node other than `P`, an until's at load 0.
    // `Interval::from(byte)` would not say what the byte is.
    pub fn of_byte(byte: u8) -> Interval
        ensures { result ≡ interval (lower_of (verdict_at byte)) (upper_of (verdict_at byte)) }
    {
        match byte {
            0 => Interval::IMPOSSIBLE,
            1 => Interval::CERTAIN,
            _ => Interval::UNKNOWN,
        }
    }

    // The verdict of a `P` whose probability lies in the interval.
    pub fn judge(self, comparison: Comparison, threshold: u32) -> Verdict
        ensures { verdict_of result ≡ judged (comparison_of comparison) threshold self.lower self.upper }
    {
        match comparison {
            Comparison::AtLeast => self.at_least(threshold),
            Comparison::More => self.more(threshold),
            Comparison::Less => self.at_least(threshold).negate(),
            Comparison::AtMost => self.more(threshold).negate(),
        }
    }

    // The verdict of `>=`.
    fn at_least(self, threshold: u32) -> Verdict
        ensures { verdict_of result ≡ judged_at_least threshold self.lower self.upper }
    {
        if threshold <= self.lower {
            Verdict::Yes
        } else if self.upper < threshold {
            Verdict::No
        } else {
            Verdict::Undecided
        }
    }

    // The verdict of `>`.
    fn more(self, threshold: u32) -> Verdict
        ensures { verdict_of result ≡ judged_more threshold self.lower self.upper }
    {
        if threshold < self.lower {
            Verdict::Yes
        } else if self.upper <= threshold {
            Verdict::No
        } else {
            Verdict::Undecided
        }
    }
}
