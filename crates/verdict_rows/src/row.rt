// The row of a node: from nothing, from words, or from the rows of its operands. Each function takes n beside its slice, since `clear` and the others
// promise to leave what stands behind the row.
ghost use Rattle.std.specs.Prelude.{◌≡◌, ℕ, ◌+◌, ◌<◌, ◌≤◌, length, get_or};
ghost use Rattle.csl.specs.Laws.Decided.{all_decided};
ghost use Rattle.verdicts.specs.Paper.{comparison_of};
ghost use Rattle.verdicts.specs.Byte.{verdicts};
ghost use Rattle.verdict_rows.specs.Byte.{label_byte, negated_byte, joined_byte, judged_byte, told_byte, next_byte};
ghost use Rattle.verdict_rows.specs.Row.{RowIs, RowBy, EndsIn};

use crate::bound::Bound;
use crate::byte;

// Each of the first n bytes becomes what `f` makes of its state and of the byte that it was.
fn set<F: Fn(usize, u8) -> u8>(row: &mut [u8], n: usize, f: F)
    requires asked { (s : ℕ) → s < n → F.pre f s (get_or row.old s 0) }
    requires n_in_bounds { n ≤ length row.old }
    ensures { RowBy (F.post f) n row.old row.new }
{
    for s in 0..n {
        row[s] = f(s, row[s]);
    }
}

// Yes at every state.
pub fn fill_yes(row: &mut [u8], n: usize)
    requires { n ≤ length row.old }
    ensures { RowIs (λ s. 1) n row.old row.new }
{
    row[..n].fill(1);
}

// 0 in the first n bytes, whatever they were.
pub fn clear(row: &mut [u8], n: usize)
    requires { n ≤ length row.old }
    ensures { RowIs (λ s. 0) n row.old row.new }
{
    row[..n].fill(0);
}

// The marks of a label; word s has those of state s.
pub fn fill_label(words: &[u64], label: usize, row: &mut [u8], n: usize)
    requires { (label < 64) × (n ≤ length words.now) × (n ≤ length row.old) }
    ensures { RowIs (λ s. label_byte (get_or words.now s 0) label) n row.old row.new }
{
    set(row, n, |s, _| byte::of_label(words[s], label));
}

// `!` of the row itself.
pub fn negate(row: &mut [u8], n: usize)
    requires { n ≤ length row.old }
    ensures { RowIs (λ s. negated_byte (get_or row.old s 0)) n row.old row.new }
{
    set(row, n, |_, byte| byte::of_negation(byte));
}

// `&` of the row itself and the next one.
pub fn join(rows: &mut [u8], n: usize)
    requires { n + n ≤ length rows.old }
    ensures { RowIs (λ s. joined_byte (get_or rows.old s 0) (get_or rows.old (n + s) 0)) n
        rows.old rows.new }
{
    let (row, next) = rows.split_at_mut(n);
    set(row, n, |s, byte| byte::of_both(byte, next[s]));
}

// Whether no state of the row is undecided.
pub fn all_decided(row: &[u8], n: usize) -> bool
    requires { n ≤ length row.now }
    ensures { result ≡ all_decided n (verdicts row.now) }
{
    row[..n].iter().all(|byte| verdicts::is_decided(*byte))
}

// The verdicts of a `P` that the moves decide, where the row behind it says at which states what its threshold asks for holds.
pub fn tell(rows: &mut [u8], bound: Bound, n: usize)
    requires { n + n ≤ length rows.old }
    ensures { RowIs (λ s. told_byte (comparison_of bound.comparison) bound.threshold (get_or rows.old (n + s) 0)) n
        rows.old rows.new }
{
    let (row, holds) = rows.split_at_mut(n);
    set(row, n, |s, _| bound.tell(holds[s]));
}

// The verdicts of a `P` over a next move that the moves decide; its ends are the first 2 * n words, the lower ones and then the upper ones.
pub fn tell_next(words: &[u64], bound: Bound, row: &mut [u8], n: usize)
    requires { (n + n ≤ length words.now) × (n ≤ length row.old) }
    ensures { RowIs
        (λ s. told_byte (comparison_of bound.comparison) bound.threshold (next_byte bound.threshold (get_or words.now s 0) (get_or words.now (n + s) 0))) n
        row.old row.new }
{
    set(row, n, |s, _| bound.tell_next(words[s], words[n + s]));
}

// The verdicts of a `P` whose ends are the first 2 * n words: the lower ones, then the upper ones.
pub fn judge(words: &[u64], bound: Bound, row: &mut [u8], n: usize)
    requires ends_in { EndsIn n words.now }
    requires n_in_bounds { n ≤ length row.old }
    ensures { RowIs
        (λ s. judged_byte (comparison_of bound.comparison) bound.threshold (get_or words.now s 0) (get_or words.now (n + s) 0)) n
        row.old row.new }
{
    set(row, n, |s, _| bound.judge(words[s], words[n + s]));
}
