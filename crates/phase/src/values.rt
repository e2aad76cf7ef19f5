// The values of all states one step on: each held, or moved and rounded down.
ghost use Rattle.std.specs.Prelude.{◌≡◌, length};
ghost use Rattle.vectors.specs.Places.{value_at, held_at};
ghost use Rattle.phase.specs.Value.{next};
ghost use Rattle.phase.specs.Moving.{RowAsked, RowSummed, StateAsked, Moving, Moved};

// The words of one row, their rates times values added to a sum.
// By an index: tried over the slice `&moves[begin..end]`, where a step of the engine took 6 in a hundred longer. No struct is
// plainer: `state` alone calls this.
fn row(moves: &[u64], words: &[u64], n: usize, begin: usize, end: usize, own: u64) -> u64
    requires { RowAsked moves.now words.now n begin end own }
    ensures { RowSummed moves.now words.now n begin end own result }
{
    let mut sum = own;
    for j in begin..end {
        let rate = rate_matrix::rate_of(moves[j]);
        let to = rate_matrix::to_of(moves[j]);
        sum += rate * words[vectors::VALUES * n + to];
    }
    sum
}

// The value of state s one step on: its own where that is held, else from those of all states, its own by what stays put and its row's.
// No struct is plainer: `move_values` alone calls this, and `begin` and `end` are new at each state.
fn state(moves: &[u64], words: &[u64], n: usize, q: u64, s: usize, begin: usize, end: usize) -> u64
    requires { StateAsked moves.now words.now n q s begin end }
    ensures { result ≡ next moves.now (length moves.now) q
        (held_at words.now n q) (value_at words.now n) s }
{
    let own = words[vectors::VALUES * n + s];
    let stays = words[vectors::STAYS * n + s];
    if q < stays {
        return own;
    }
    row(moves, words, n, begin, end, stays * own) / q
}

// The values of all states one step on, from their column into the next.
pub fn move_values(moves: &[u64], words: &mut [u64], n: usize, q: u64)
    requires { Moving moves.now words.old n q }
    ensures { Moved moves.now n q words.old words.new }
{
    let mut begin = 0;
    for s in 0..n {
        let end = words[vectors::ENDS * n + s] as usize;
        words[vectors::NEXT * n + s] = state(moves, words, n, q, s, begin, end);
        begin = end;
    }
}
