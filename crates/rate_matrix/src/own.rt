// A word of the column of the rates to the own state: the rate stands in its lower half, and in its upper half where the row of the moves that
// enter the state ends in the index of the moves.
ghost use Rattle.std.specs.Prelude.{◌≡◌};
ghost use Rattle.rate_matrix.specs.Halves.{own_rate, row_end};

// So many numbers each half of a word can hold: 1 of the upper half.
pub const HALF: u64 = 1 << 32;

// The rate from the state to itself.
pub fn own_rate_of(word: u64) -> u64
    ensures { result ≡ own_rate word }
{
    word % HALF
}

// Where the row of the moves that enter it ends.
pub fn row_end_of(word: u64) -> usize
    ensures { result ≡ row_end word }
{
    (word / HALF) as usize
}
