// From the queued states against the moves, until the queue is empty or no state is left to be reached.
ghost use Rattle.std.specs.Prelude.{◌≡◌, ◌+◌, set};
ghost use Rattle.numbers.specs.Filled.{at};
ghost use Rattle.vectors.specs.Places.{values_from};
ghost use Rattle.reachability.specs.Asked.{TakeAsked, rows_taken, EnterAsked, EnterLeaves, RowAsked, row_begin, SpreadAsked, SpreadLeaves};

// Reaches state s, and queues it at `tail`, if its first byte is 1; else the place in the queue stays free. It does either without a branch, which
// would often be foretold wrongly. The queue then ends at what is returned.
#[tactic(auto, using(crate::proofs::TakeLaw::take_laws))]
fn take(words: &mut [u64], rows: &mut [u8], n: usize, s: usize, tail: usize) -> usize
    requires { TakeAsked words.old rows.old n s tail }
    ensures value { result ≡ tail + at rows.old s }
    ensures queue { words.new ≡ set words.old (values_from n + tail) s }
    ensures bytes { rows.new ≡ rows_taken rows.old n s }
{
    let first = rows[s];
    let second = rows[n + s];
    words[vectors::VALUES * n + tail] = s as u64;
    rows[s] = 0;
    rows[n + s] = first + second;
    tail + usize::from(first)
}

// Reaches the states that move to one that is reached, by the words of its row of the index, from begin to end: those of the first operand that
// are not reached yet. With `most` states in the queue there are none.
// The words and rows stay apart: of a struct of `&mut` slices a clause could say what is left only as `exit.0`, `exit.1.0` and so on.
#[tactic(auto, using(crate::proofs::EnterLaw::enter_laws))]
fn enter(
    index: &[u64],
    words: &mut [u64],
    rows: &mut [u8],
    n: usize,
    begin: usize,
    end: usize,
    queued: usize,
    most: usize,
) -> usize
    requires { EnterAsked index.now words.old rows.old n begin end queued most }
    ensures { EnterLeaves index.now n begin end most words.old rows.old queued
        words.new rows.new result }
{
    let mut tail = queued;
    for &word in &index[begin..end] {
        if tail == most {
            return tail;
        }
        let s = rate_matrix::to_of(word);
        tail = take(words, rows, n, s, tail);
    }
    tail
}

// Where the row of the moves that enter t begins in the index.
#[tactic(auto, using(crate::proofs::RowLaw::row_laws))]
fn row_begin(words: &[u64], n: usize, t: usize) -> usize
    requires { RowAsked words.now n t }
    ensures { result ≡ row_begin words.now n t }
{
    if t == 0 {
        return 0;
    }
    rate_matrix::row_end_of(words[vectors::OWNS * n + (t - 1)])
}

// Takes one queued state after the other, and reaches those that move to it. `most` states are queued or yet to be reached.
// The words and rows stay apart: of a struct of `&mut` slices a clause could say what is left only as `exit.0`, `exit.1.0` and so on.
pub fn spread(
    index: &[u64],
    words: &mut [u64],
    rows: &mut [u8],
    n: usize,
    queued: usize,
    most: usize,
)
    requires { SpreadAsked index.now words.old rows.old n queued most }
    ensures { SpreadLeaves index.now n most words.old rows.old queued words.new rows.new }
{
    let mut tail = queued;
    let mut head: usize = 0;
    // A `while`: the queue grows while it is gone through, so that no range has its end.
    while head < tail {
        if tail == most {
            return;
        }
        let t = words[vectors::VALUES * n + head] as usize;
        let begin = row_begin(words, n, t);
        let end = rate_matrix::row_end_of(words[vectors::OWNS * n + t]);
        tail = enter(index, words, rows, n, begin, end, tail, most);
        head += 1;
    }
}
