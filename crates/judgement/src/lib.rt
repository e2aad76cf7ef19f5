// The row of a `P` whose ends stand in the words: by the moves where they decide it, else by the ends.

#![tactic(auto)]

ghost use Rattle.std.specs.Prelude.{◌≡◌, ◌≤◌, length};
ghost use Rattle.verdicts.specs.Paper.{comparison_of};
ghost use Rattle.judgement.specs.Judged.{moves_decide, AskAsked, AskLeaves, JudgeAsked, JudgeLeaves, NextJudgeAsked, NextJudged};

use verdict_rows::Bound;

// Whether the moves decide a `P` with this threshold, the verdicts of whose operands are so many bytes.
#[tactic(auto, unfolding(crate::specs::Judged::moves_decide))]
fn moves_decide(rows: &[u8], count: usize, threshold: u32) -> bool
    requires { count ≤ length rows.now }
    ensures { result ≡ moves_decide threshold count rows.now }
{
    verdicts::zero_or_one(threshold) && verdict_rows::all_decided(rows, count)
}

// Makes the row of an until's second operand say where what the threshold asks for holds: possible with 0, which a search tells where the time is
// above 0; certain with 1,000,000,000, which is where the operand holds.
// The words and rows stay apart: of a struct of `&mut` slices a clause could say what is left only as `exit.0`, `exit.1.0` and so on.
fn ask_moves(
    index: &[u64],
    words: &mut [u64],
    rows: &mut [u8],
    n: usize,
    hundredths: u64,
    threshold: u32,
)
    requires { AskAsked index.now words.old rows.old n hundredths threshold }
    ensures ask_leaves { (a : AskAsked index.now words.old rows.old n hundredths threshold)
        → AskLeaves a rows.new }
    ensures same { words.new ≡ words.old }
{
    if threshold == 0 && hundredths != 0 {
        reachability::search(index, words, rows, n);
    }
}

// Over an until, whose operands have the first two rows.
// The words and rows stay apart: of a struct of `&mut` slices a clause could say what is left only as `exit.0`, `exit.1.0` and so on.
pub fn until(
    index: &[u64],
    words: &mut [u64],
    rows: &mut [u8],
    n: usize,
    hundredths: u64,
    bound: Bound,
)
    requires { JudgeAsked index.now words.old rows.old n hundredths bound.threshold }
    ensures judge_leaves { (a : JudgeAsked index.now words.old rows.old n hundredths bound.threshold)
        → JudgeLeaves a (comparison_of bound.comparison) rows.new }
    ensures same { words.new ≡ words.old }
{
    if moves_decide(rows, n + n, bound.threshold) {
        ask_moves(index, words, rows, n, hundredths, bound.threshold);
        verdict_rows::tell(rows, bound, n);
    } else {
        verdict_rows::judge(words, bound, rows, n);
    }
}

// Over a next move, whose operand has the row.
pub fn next(words: &[u64], row: &mut [u8], n: usize, bound: Bound)
    requires { NextJudgeAsked words.now row.old n }
    ensures { NextJudged (comparison_of bound.comparison) bound.threshold n words.now row.old row.new }
{
    if moves_decide(row, n, bound.threshold) {
        verdict_rows::tell_next(words, bound, row, n);
    } else {
        verdict_rows::judge(words, bound, row, n);
    }
}
