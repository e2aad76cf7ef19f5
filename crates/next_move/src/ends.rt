// The interval of a next move, from what enters states where the operand holds and the exit rate, moves to the own state counted.
ghost use Rattle.std.specs.Prelude.{◌≡◌, ◌≤◌};
ghost use Rattle.csl.specs.Limits.{most_rate};
ghost use Rattle.vectors.specs.Places.{EndsStored};
ghost use Rattle.verdicts.specs.Paper.{interval};
ghost use Rattle.next_move.specs.Ends.{down_of, up_of, lower_at, upper_at, StateAsked, NextAsked};

use crate::entering;
use verdicts::Interval;

// The interval of a state whose exit rate is this, of which `low` at least and `high` at most enters states where the operand holds: the one
// fraction rounded down to billionths, the other up, and 0 where the exit rate is 0.
#[tactic(auto, using(crate::proofs::IntervalLaw::interval_laws))]
fn interval_of(low: u64, high: u64, exit: u64) -> Interval
    requires { (low ≤ exit) × (high ≤ exit) × (exit ≤ most_rate) }
    ensures { result ≡ interval (down_of low exit) (up_of high exit) }
{
    if exit == 0 {
        return Interval::IMPOSSIBLE;
    }
    let lower = low * limits::BILLION / exit;
    let upper = (high * limits::BILLION).div_ceil(exit);
    Interval::new(lower as u32, upper as u32)
}

// The interval of state s, whose row of move words is that from begin to end.
// No struct is plainer: `next_move` alone calls this, and `begin` and `end` are new at each state.
fn state(
    moves: &[u64],
    words: &[u64],
    operand: &[u8],
    n: usize,
    s: usize,
    begin: usize,
    end: usize,
) -> Interval
    requires { StateAsked moves.now words.now operand.now n s begin end }
    ensures { result ≡ interval
        (lower_at moves.now words.now operand.now n s)
        (upper_at moves.now words.now operand.now n s) }
{
    let others = entering::row(moves, operand, n, begin, end);
    let own = rate_matrix::own_rate_of(words[vectors::OWNS * n + s]);
    let byte = operand[s];
    interval_of(
        others.low + entering::share(own, byte, false),
        others.high + entering::share(own, byte, true),
        words[vectors::EXITS * n + s] + own,
    )
}

// The two ends of each state for the next move into states where the operand holds; the words are prepared, and the operand's verdict bytes
// are one row.
#[tactic(auto, using(crate::proofs::EndsLaw::ends_laws))]
pub fn next_move(moves: &[u64], words: &mut [u64], operand: &[u8], n: usize)
    requires { NextAsked moves.now words.old operand.now n }
    ensures { EndsStored
        (lower_at moves.now words.old operand.now n)
        (upper_at moves.now words.old operand.now n)
        n words.old words.new }
{
    let mut begin: usize = 0;
    for s in 0..n {
        let end = words[vectors::ENDS * n + s] as usize;
        let ends = state(moves, words, operand, n, s, begin, end);
        words[s] = u64::from(ends.lower);
        words[n + s] = u64::from(ends.upper);
        begin = end;
    }
}
