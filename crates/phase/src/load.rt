// A load: the depth for it, the weights of the steps, and the last step that counts.
ghost use Rattle.std.specs.Prelude.{◌≡◌, ◌/◌, ◌≤◌};
ghost use Rattle.bounds.specs.Last.{last_from};
ghost use Rattle.bounds.specs.Ends.{negligible};
ghost use Rattle.vectors.specs.Places.{weight_at, total_in};
ghost use Rattle.phase.specs.Load.{load_depth, most_load, WeighAsked, Weighed, LightAsked};

use limits::{RATE_HUNDREDTHS, SPARE_STEPS};

// The depth for a load of a hundred-millionths.
pub fn depth_of(a: u64) -> usize
    requires { a ≤ most_load }
    ensures { result ≡ load_depth a }
{
    (2 * a.div_ceil(RATE_HUNDREDTHS) + SPARE_STEPS) as usize
}

// The weights of steps 0 to depth for a load of a hundred-millionths, and their total, in their places.
pub fn weigh(words: &mut [u64], n: usize, a: u64, depth: usize)
    requires { WeighAsked words.old n a depth }
    ensures { Weighed n a depth words.old words.new }
{
    let m = (a / RATE_HUNDREDTHS) as usize;
    let total = weights::weigh(words, vectors::WEIGHTS * n, m, depth, a, RATE_HUNDREDTHS);
    words[vectors::total(n)] = total;
}

// The last step to be made: the weights of those after it, through the depth, are together next to nothing of the total.
pub fn last_step(words: &[u64], n: usize, depth: usize) -> usize
    requires { LightAsked words.now n depth }
    ensures { result ≡ last_from (weight_at words.now n) (total_in words.now n / negligible) depth 0 }
{
    let most = words[vectors::total(n)] / bounds::NEGLIGIBLE;
    let mut rest = 0;
    for k in (1..=depth).rev() {
        rest += words[vectors::WEIGHTS * n + k];
        if most < rest {
            return k;
        }
    }
    0
}
