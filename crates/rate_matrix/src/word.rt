// A move in one word of 64 bits: the state that it leaves, the state that it enters, and its rate.
ghost use Rattle.std.specs.Prelude.{◌≡◌, ◌<◌};
ghost use Rattle.csl.specs.Limits.{most_states};
ghost use Rattle.rate_matrix.specs.Packed.{packed, word_from, word_to, word_rate, word_away};

// So many states a digit of a word can name.
const STATES: u64 = limits::MOST_STATES as u64;

// A move as one word.
pub fn pack(from: u64, to: u64, rate: u64) -> u64
    requires { (from < 10000000000) × (to < 10000000000) × (rate < 10000000000) }
    ensures { result ≡ packed from to rate }
{
    rate * (STATES * STATES) + from * STATES + to
}

// The state that a packed move leaves.
pub fn from_of(word: u64) -> usize
    ensures value { result ≡ word_from word }
    ensures within { result < most_states }
{
    (word / STATES % STATES) as usize
}

// The state that it goes to.
pub fn to_of(word: u64) -> usize
    ensures value { result ≡ word_to word }
    ensures within { result < most_states }
{
    (word % STATES) as usize
}

// Its rate.
pub fn rate_of(word: u64) -> u64
    ensures { result ≡ word_rate word }
{
    word / (STATES * STATES)
}

// The packed move, without its rate if it goes to its own state.
pub fn away(word: u64) -> u64
    ensures { result ≡ word_away word }
{
    if from_of(word) == to_of(word) {
        return word % (STATES * STATES);
    }
    word
}
