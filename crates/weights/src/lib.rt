// The weights of the steps, rounded down, from the largest one both ways; what a step adds to a sum; a sum over all weights.

#![tactic(auto)]

ghost use Rattle.std.specs.Prelude.{◌≡◌, ◌+◌, ◌*◌, ◌-◌, ◌/◌};
ghost use Rattle.csl.specs.Chain.{sum_to};
ghost use Rattle.numbers.specs.Filled.{Filled};
ghost use Rattle.bounds.specs.Weight.{low};
ghost use Rattle.bounds.specs.Unit.{scale, part};
ghost use Rattle.bounds.specs.Ends as ends;
ghost use Rattle.weights.specs.Asked.{Fall, Rise, Slack, Adds, Over, Share, Half, Rest, weighed, Total, Weigh};

// The weight of step k - 1, from the weight w of step k.
fn before(w: u64, k: u64, a: u64, b: u64) -> u64
    requires { Fall w k a b }
    ensures { result ≡ w * (k * b) / a }
{
    division::muldiv(w, k * b, a)
}

// The weight of step k, from the weight w of step k - 1.
fn after(w: u64, k: u64, a: u64, b: u64) -> u64
    requires { Rise w k a b }
    ensures { result ≡ w * a / (k * b) }
{
    division::muldiv(w, a, k * b)
}

// A sum with a weight times a value added, rounded down. That the weight's high digit fits 32 bits makes its product a quick one.
#[tactic(auto, using(crate::proofs::AddedLaw::part_digits))]
pub fn added(sum: u64, w: u64, v: u64) -> u64
    requires { Adds sum w v }
    ensures { result ≡ sum + part w v }
{
    let high = (w / bounds::GRAIN) as u32;
    sum + (high as u64 * v + w % bounds::GRAIN * v / bounds::GRAIN)
}

// What is left of a division by a total below this, times the scale, fits 64 bits.
const NARROW: u64 = 1 << 48;

// Above it the scale is taken in two digits of this size.
const DIGIT: u64 = 256;

// What is left of a division by the total, times the scale, over the total.
#[tactic(auto, using(crate::proofs::OverLaw::share_is))]
fn share(rest: u64, t: u64) -> u64
    requires { Share rest t }
    ensures { result ≡ rest * scale / t }
{
    if t < NARROW {
        return rest * bounds::SCALE / t;
    }
    let high = rest * DIGIT;
    high / t * DIGIT + high % t * DIGIT / t
}

// A sum over the total of the weights, in billionths, rounded down.
#[tactic(auto, using(crate::proofs::OverLaw::over_laws))]
pub fn over(g: u64, t: u64) -> u64
    requires { Over g t }
    ensures { result ≡ g * scale / t }
{
    g / t * bounds::SCALE + share(g % t, t)
}

// The weight w of step k, as much greater as it can be too low, with the largest weight at m.
fn at_most(w: u64, m: usize, k: usize) -> u64
    requires { Slack w m k }
    ensures { result ≡ w + (m - k + (k - m)) }
{
    w + m.abs_diff(k) as u64
}

// The weights of steps m down to 0, from a place of the words on.
fn falling(words: &mut [u64], from: usize, m: usize, a: u64, b: u64)
    requires { Half words.old from m a b }
    ensures { Filled (low a b m) from (m + 1) words.old words.new }
{
    words[from + m] = bounds::PEAK;
    for k in (0..m).rev() {
        words[from + k] = before(words[from + k + 1], (k + 1) as u64, a, b);
    }
}

// The weights of the steps after m, through d.
// The numbers stay apart: `falling` takes them without d, `total` without the load, and no struct of them is plainer.
fn rising(words: &mut [u64], from: usize, m: usize, d: usize, a: u64, b: u64)
    requires { Rest words.old from m d a b }
    ensures { Filled (low a b m) from (d + 1) words.old words.new }
{
    for k in m..d {
        words[from + k + 1] = after(words[from + k], (k + 1) as u64, a, b);
    }
}

// All weights together, each taken at most as much too low as it can be, and the last once more for the steps after d.
#[tactic(auto, using(crate::proofs::TotalLaw::total_laws))]
fn total(words: &[u64], from: usize, m: usize, d: usize) -> u64
    requires { Total words.now from m d }
    ensures { result ≡ sum_to (weighed words.now from m) (d + 1) + weighed words.now from m d }
{
    let mut t = at_most(words[from + d], m, d);
    for k in 0..=d {
        t += at_most(words[from + k], m, k);
    }
    t
}

// The weights of steps 0 to d, from the largest one, at m, into the words from a place on; and their total. The numbers stay apart, as in
// `rising`.
#[tactic(auto, using(crate::proofs::WeighLaw::weigh_laws))]
pub fn weigh(words: &mut [u64], from: usize, m: usize, d: usize, a: u64, b: u64) -> u64
    requires { Weigh words.old from m d a b }
    ensures { (result ≡ ends.total a b m d) × Filled (low a b m) from (d + 1) words.old words.new }
{
    falling(words, from, m, a, b);
    rising(words, from, m, d, a, b);
    total(words, from, m, d)
}
