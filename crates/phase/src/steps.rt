// The beginning of a phase, and one step of it.
ghost use Rattle.phase.specs.Steps.{AdvanceAsked, Advanced, BeginAsked, Begun, StepAsked, Stepped};

use crate::values;

// The values one step on become the values, and each is added to its sum with the step's weight w.
fn advance(words: &mut [u64], n: usize, w: u64)
    requires { AdvanceAsked words.old n w }
    ensures { Advanced n w words.old words.new }
{
    for i in 0..n {
        let x = words[vectors::NEXT * n + i];
        words[vectors::VALUES * n + i] = x;
        words[vectors::SUMS * n + i] = weights::added(words[vectors::SUMS * n + i], w, x);
    }
}

// Step 0 of a phase whose start vector stands in the column of the values one step on, with what stays put and the weights in their places:
// the values, each with its weight the first in its sum, and step number 0.
pub fn begin(words: &mut [u64], n: usize)
    requires { BeginAsked words.old n }
    ensures { Begun n words.old words.new }
{
    let w = words[vectors::WEIGHTS * n];
    zeros::clear_from(words, vectors::SUMS * n, n);
    advance(words, n, w);
    words[vectors::number(n)] = 0;
}

// One step of a phase: the values of all states one step on, each added to its sum with the step's weight, and the step number one higher.
pub fn step(moves: &[u64], words: &mut [u64], n: usize, q: u64)
    requires { StepAsked moves.now words.old n q }
    ensures { Stepped moves.now n q words.old words.new }
{
    let at = vectors::number(n);
    let k = words[at] + 1;
    let w = words[vectors::WEIGHTS * n + k as usize];
    values::move_values(moves, words, n, q);
    advance(words, n, w);
    words[at] = k;
}
