// The report of a `P`, from the rows of its path's operands.
ghost use Rattle.verdicts.specs.Paper.{comparison_of};
ghost use Rattle.decide.specs.Chance.{UntilAsked, UntilLeaves, NextAsked, NextLeaves, TwoPhasesAsked, TwoPhasesLeaves, BetweenAsked, BetweenLeaves, ChanceAsked, ChanceLeaves};

use crate::rows::clear_second;
use crate::sheet::LaidSheet;
use formula::Path;
use verdict_rows::Bound;

// Over an until, the row of whose first operand is its own; that of the second, behind it, is put back to 0.
fn over_until(
    sheet: LaidSheet,
    vectors: &mut [u64],
    marks: &mut [u8],
    hundredths: u64,
    bound: Bound,
) -> usize
    requires { UntilAsked sheet.moves.now sheet.index.now vectors.old marks.old sheet.n sheet.q hundredths bound.threshold }
    ensures { (a : UntilAsked sheet.entry.moves.now sheet.entry.index.now vectors.old marks.old sheet.entry.n sheet.entry.q hundredths bound.threshold)
        → UntilLeaves a (comparison_of bound.comparison) vectors.new marks.new result }
{
    let LaidSheet { moves, index, n, q } = sheet;
    let rows = &marks[..];
    let depth = until::until(moves, vectors, rows, &rows[n..], n, q, hundredths);
    judgement::until(index, vectors, marks, n, hundredths, bound);
    clear_second(marks, n);
    depth
}

// Over a next move, the row of whose operand is its own; its depth is 0.
fn over_next(sheet: LaidSheet, vectors: &mut [u64], marks: &mut [u8], bound: Bound) -> usize
    requires { NextAsked sheet.moves.now vectors.old marks.old sheet.n bound.threshold }
    ensures { (a : NextAsked sheet.entry.moves.now vectors.old marks.old sheet.entry.n bound.threshold)
        → NextLeaves a (comparison_of bound.comparison) vectors.new marks.new result }
{
    next_move::next_move(sheet.moves, vectors, marks, sheet.n);
    judgement::next(vectors, marks, sheet.n, bound);
    0
}

// Over an until between two times, the first of which is above 0: first the later phase, the until over the difference; then, with no state of the
// second operand as a goal any more, the earlier phase from the ends that it left. The row of the first operand is the node's own; that of the
// second, behind it, is put back to 0. The depth is that of both.
// The words and marks stay apart, as in `decide`.
fn over_two_phases(
    sheet: LaidSheet,
    vectors: &mut [u64],
    marks: &mut [u8],
    from: u64,
    to: u64,
    bound: Bound,
) -> usize
    requires { TwoPhasesAsked sheet.moves.now vectors.old marks.old sheet.n sheet.q from to bound.threshold }
    ensures { (a : TwoPhasesAsked sheet.entry.moves.now vectors.old marks.old sheet.entry.n sheet.entry.q from to bound.threshold)
        → TwoPhasesLeaves a (comparison_of bound.comparison) vectors.new marks.new result }
{
    let LaidSheet { moves, n, q, .. } = sheet;
    let rest = to - from;
    let rows = &marks[..];
    let later = until::until(moves, vectors, rows, &rows[n..], n, q, rest);
    clear_second(marks, n);
    let first = &marks[..];
    let earlier = until::earlier(moves, vectors, first, &first[n..], n, q, from);
    verdict_rows::judge(vectors, bound, marks, n);
    earlier + later
}

// Over an until between two times: with the first of them 0 it is the until over the second.
// The words and marks stay apart, as in `decide`.
fn over_between(
    sheet: LaidSheet,
    vectors: &mut [u64],
    marks: &mut [u8],
    from: u64,
    to: u64,
    bound: Bound,
) -> usize
    requires { BetweenAsked sheet.moves.now sheet.index.now vectors.old marks.old sheet.n sheet.q from to bound.threshold }
    ensures { (a : BetweenAsked sheet.entry.moves.now sheet.entry.index.now vectors.old marks.old sheet.entry.n sheet.entry.q from to bound.threshold)
        → BetweenLeaves a (comparison_of bound.comparison) vectors.new marks.new result }
{
    if from == 0 {
        over_until(sheet, vectors, marks, to, bound)
    } else {
        over_two_phases(sheet, vectors, marks, from, to, bound)
    }
}

// Of any path.
pub fn chance(
    sheet: LaidSheet,
    path: Path,
    bound: Bound,
    vectors: &mut [u64],
    marks: &mut [u8],
) -> usize
    requires { ChanceAsked sheet.moves.now sheet.index.now vectors.old marks.old path bound.threshold sheet.n sheet.q }
    ensures { (a : ChanceAsked sheet.entry.moves.now sheet.entry.index.now vectors.old marks.old path bound.threshold sheet.entry.n sheet.entry.q)
        → ChanceLeaves a (comparison_of bound.comparison) vectors.new marks.new result }
{
    match path {
        Path::Until { hundredths, .. } => over_until(sheet, vectors, marks, hundredths, bound),
        Path::Next(_) => over_next(sheet, vectors, marks, bound),
        Path::Between { from, to, .. } => over_between(sheet, vectors, marks, from, to, bound),
    }
}
