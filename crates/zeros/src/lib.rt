// Zeros in lent words.

#![tactic(auto)]

ghost use Rattle.std.specs.Prelude.{◌≡◌, ◌+◌, ◌≤◌, length, replicate};
ghost use Rattle.csl.specs.Lent.{written};
ghost use Rattle.numbers.specs.Filled.{Filled};

// So many words from a place on.
pub fn clear_from(words: &mut [u64], from: usize, count: usize)
    requires { from + count ≤ length words.old }
    ensures { Filled (λ _. 0) from count words.old words.new }
{
    words[from..from + count].fill(0);
}

// The first words.
#[tactic(auto, using(numbers::specs::Filled::zeros_written))]
pub fn clear_words(words: &mut [u64], count: usize)
    requires { count ≤ length words.old }
    ensures { words.new ≡ written (replicate count 0) words.old }
{
    clear_from(words, 0, count);
}
