// The report of a decided formula in the caller's result buffers.

#![tactic(auto)]

ghost use Rattle.std.specs.Prelude.{◌≡◌, ◌+◌, ◌≤◌, length, get_or};
ghost use Rattle.csl.specs.Lent.{column, written};
ghost use Rattle.verdict_rows.specs.Row.{EndsIn};

// Writes the report of n states, from what deciding the formula left: the ends from the first 2 * n words, the lower ones and then the upper
// ones, and the verdicts from the first row of bytes.
// One loop writes all three: a copy of the bytes by itself would have the library's archive ask for `memmove`, which its header does not name.
// The result buffers stay apart: of a struct of `&mut` slices a clause could say what is left only as `exit.0`, `exit.1.0` and so on.
#[tactic(auto, using(numbers::specs::Filled::table_written))]
pub fn write(
    words: &[u64],
    row: &[u8],
    n: usize,
    lower: &mut [u32],
    upper: &mut [u32],
    verdicts: &mut [u8],
)
    requires ends_in { (EndsIn n words.now) × (n ≤ length row.now) }
    requires n_in_bounds { (n ≤ length lower.old) × (n ≤ length upper.old) × (n ≤ length verdicts.old) }
    ensures lowers { lower.new ≡ written (column (λ s. get_or words.now s 0) n) lower.old }
    ensures uppers { upper.new ≡ written (column (λ s. get_or words.now (n + s) 0) n) upper.old }
    ensures bytes { verdicts.new ≡ written (column (λ s. get_or row.now s 0) n) verdicts.old }
{
    for s in 0..n {
        lower[s] = words[s] as u32;
        upper[s] = words[n + s] as u32;
        verdicts[s] = row[s];
    }
}
