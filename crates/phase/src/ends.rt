// The ends that the sums of a phase give, over the total of the weights.
ghost use Rattle.std.specs.Prelude.{◌≡◌, ◌-◌};
ghost use Rattle.numbers.specs.Filled.{Filled};
ghost use Rattle.vectors.specs.Places.{uppers_from};
ghost use Rattle.phase.specs.Ends.{GatherAsked, whole_of, LowerAsked, lower_at, OverAsked, upper_from, UpperAsked, upper_at};

// What values of 0 would leave to be summed, one number for all states: each step's weight times 1 less what a value can lack there, which
// is `error` at step 0 and a unit more at each later step; and less 1 for each step's rounding.
#[tactic(auto, using(crate::proofs::GatherLaw::gather_laws))]
fn gatherable(words: &[u64], n: usize, last: usize, error: u64) -> u64
    requires { GatherAsked words.now n last error }
    ensures { result ≡ whole_of words.now n last error }
{
    let mut g = 0;
    for k in 0..=last {
        let most = bounds::ONE.saturating_sub(error + k as u64);
        g = weights::added(g, words[vectors::WEIGHTS * n + k], most);
    }
    g.saturating_sub(last as u64 + 1)
}

// The lower end that each state's sum gives.
pub fn lower_ends(words: &mut [u64], n: usize)
    requires { LowerAsked words.old n }
    ensures { Filled (lower_at words.old n) 0 n words.old words.new }
{
    let total = words[vectors::total(n)];
    for s in 0..n {
        words[s] = weights::over(words[vectors::SUMS * n + s], total);
    }
}

// The upper end that a sum gives: what it leaves of what could be summed, over the total, is left of 1.
fn upper_end(sum: u64, total: u64, whole: u64) -> u64
    requires { OverAsked total whole }
    ensures { result ≡ upper_from sum total whole }
{
    limits::BILLION - weights::over(whole.saturating_sub(sum), total)
}

// The upper end that each state's sum over steps 0 to last gives, where the start lacked at most `error` units.
pub fn upper_ends(words: &mut [u64], n: usize, last: usize, error: u64)
    requires { UpperAsked words.old n last error }
    ensures { Filled (upper_at words.old n last error) (uppers_from n) n words.old words.new }
{
    let whole = gatherable(words, n, last, error);
    let total = words[vectors::total(n)];
    for s in 0..n {
        words[n + s] = upper_end(words[vectors::SUMS * n + s], total, whole);
    }
}
