// The verdict of a `P` that the moves decide, which has the threshold 0 or 1,000,000,000.
ghost use Rattle.std.specs.Prelude.{◌≡◌};
ghost use Rattle.csl.specs.Laws.Ruling.{possible_verdict, certain_verdict, is_zero_or_one, moves_verdict};
ghost use Rattle.verdicts.specs.Paper.{verdict_of, comparison_of};

use crate::comparison::Comparison;
use crate::interval::ONE;
use crate::verdict::Verdict;

// Whether a threshold is one of the two.
pub fn zero_or_one(threshold: u32) -> bool
    ensures { result ≡ is_zero_or_one threshold }
{
    threshold == 0 || threshold == ONE
}

// With 0, from whether the path is possible.
fn by_possible(comparison: Comparison, possible: bool) -> Verdict
    ensures { verdict_of result ≡ possible_verdict (comparison_of comparison) possible }
{
    match comparison {
        Comparison::More => Verdict::from(possible),
        Comparison::AtMost => Verdict::from(possible).negate(),
        Comparison::AtLeast => Verdict::Yes,
        Comparison::Less => Verdict::No,
    }
}

// With 1,000,000,000, from whether it is certain.
fn by_certain(comparison: Comparison, certain: bool) -> Verdict
    ensures { verdict_of result ≡ certain_verdict (comparison_of comparison) certain }
{
    match comparison {
        Comparison::AtLeast => Verdict::from(certain),
        Comparison::Less => Verdict::from(certain).negate(),
        Comparison::AtMost => Verdict::Yes,
        Comparison::More => Verdict::No,
    }
}

// With either, from whether what the threshold asks for holds: possible with 0, certain with 1,000,000,000.
pub fn by_moves(comparison: Comparison, threshold: u32, holds: bool) -> Verdict
    ensures { verdict_of result ≡ moves_verdict (comparison_of comparison) threshold holds holds }
{
    if threshold == 0 {
        by_possible(comparison, holds)
    } else {
        by_certain(comparison, holds)
    }
}
