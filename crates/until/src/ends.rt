// The intervals that the operands' verdicts settle: those that a phase starts from, and those where a rule fixes them.
ghost use Rattle.std.specs.Prelude.{◌≡◌, cond};
ghost use Rattle.bounds.specs.StepValues.{pointed as pointedEnd};
ghost use Rattle.verdicts.specs.Paper.{verdict_of, interval};
ghost use Rattle.until.specs.Asked.{EndsAsked, Pointed, RowAsked, Still, Restricted};

use crate::given::Operands;
use verdicts::{Interval, Verdict};

// The interval at a state whose operands have these verdicts: fixed where the second is yes or both are no, else from lower to upper.
fn pointed(first: Verdict, second: Verdict, lower: u32, upper: u32) -> Interval
    ensures { result ≡ interval
        (pointedEnd (verdict_of first) (verdict_of second) lower)
        (pointedEnd (verdict_of first) (verdict_of second) upper) }
{
    match (first, second) {
        (_, Verdict::Yes) => Interval::CERTAIN,
        (Verdict::No, Verdict::No) => Interval::IMPOSSIBLE,
        _ => Interval::new(lower, upper),
    }
}

// The interval of each state, from the two ends that its sums give.
pub fn point(words: &mut [u64], operands: Operands, n: usize)
    requires { EndsAsked words.old operands.first.now operands.second.now n }
    ensures { Pointed operands.entry.first.now operands.entry.second.now n words.old words.new }
{
    for s in 0..n {
        let by_first = Verdict::from(operands.first[s]);
        let by_second = Verdict::from(operands.second[s]);
        let ends = pointed(by_first, by_second, words[s] as u32, words[n + s] as u32);
        words[s] = ends.lower as u64;
        words[n + s] = ends.upper as u64;
    }
}

// The interval of each state that its verdict byte in a row stands for: the one that an until starts from, by its second operand's row, and a
// report's where the outermost node is no `P`, by that node's.
pub fn still(words: &mut [u64], second: &[u8], n: usize)
    requires { RowAsked words.old second.now n }
    ensures { Still second.now n words.old words.new }
{
    for s in 0..n {
        let ends = Interval::of_byte(second[s]);
        words[s] = ends.lower as u64;
        words[n + s] = ends.upper as u64;
    }
}

// An end where an operand holds, and 0 where it does not.
fn kept(holds: bool, end: u64) -> u64
    ensures { result ≡ cond holds end 0 }
{
    if holds { end } else { 0 }
}

// The ends that an earlier phase starts from, of those that the later one left: the lower one where the first operand is yes, the upper one
// where it is not no, and 0 elsewhere.
pub fn restrict(words: &mut [u64], first: &[u8], n: usize)
    requires { RowAsked words.old first.now n }
    ensures { Restricted first.now n words.old words.new }
{
    for s in 0..n {
        words[s] = kept(verdicts::holds(first[s], false), words[s]);
        words[n + s] = kept(verdicts::holds(first[s], true), words[n + s]);
    }
}
