// The totals of the states' rates: for each state the sum of the rates on all its lines, and of those to the state itself. They are carried in
// 32 bits; how is the affair of this module alone, and what they come to is stated by the moves (`Tallied`).
ghost use Rattle.std.specs.Prelude.{◌≡◌, ◌+◌, ◌≤◌, ◌<◌};
ghost use Rattle.csl.specs.Limits.{billion, most_states};
ghost use Rattle.csl.specs.Chain.{greatest};
ghost use Rattle.numbers.specs.Filled.{at};
ghost use Rattle.moves.specs.Totals.{too_high, carried, place_of, rate_added, own_added, Carried, away_of};

use limits::MOST_STATES;

// The most that a state's rates may add up to.
pub const MOST_RATE: u32 = limits::MOST_RATE as u32;

// One above it, which stands for every sum that is too high. A number and no Option: the sums stand in arrays of 32 bits, and the greatest of them is
// asked for.
const TOO_HIGH: u32 = MOST_RATE + 1;

// As many sums as there are states in the largest sheet.
const PLACES: u64 = MOST_STATES as u64;

// A sum and a rate more. They are added up to the most that 32 bits hold, which is too high as well.
fn tested_sum(sum: u32, rate: u32) -> u32
    requires { sum ≤ too_high }
    ensures { result ≡ carried (sum + rate) }
{
    sum.saturating_add(rate).min(TOO_HIGH)
}

// Adds a rate to the sum of a state. A line may name a state past the last place; then the sums are not asked for.
fn add_rate(sums: &mut [u32; MOST_STATES], state: u64, rate: u64)
    requires { (at sums.old (place_of state) ≤ too_high) × (rate < billion) }
    ensures { sums.new ≡ rate_added sums.old state rate }
{
    let place = (state % PLACES) as usize;
    sums[place] = tested_sum(sums[place], rate as u32);
}

// One line more: its rate goes to the total of the state that it leaves, and to what goes to the own state where it does.
#[tactic(auto, using(crate::proofs::TotalsLaw::total_low, crate::proofs::TotalsLaw::own_low))]
pub fn add_line(
    totals: &mut [u32; MOST_STATES],
    owns: &mut [u32; MOST_STATES],
    from: u64,
    to: u64,
    rate: u64,
)
    requires { Carried totals.old owns.old × (rate < billion) }
    ensures totals_after { totals.new ≡ rate_added totals.old from rate }
    ensures own { owns.new ≡ own_added owns.old from to rate }
{
    add_rate(totals, from, rate);
    if from == to {
        add_rate(owns, from, rate);
    }
}

// What of a state's total goes to other states; too high where the total is.
fn away(total: u32, own: u32) -> u32
    requires { own ≤ total }
    ensures { result ≡ away_of total own }
{
    let others = total - own;
    if MOST_RATE < total { TOO_HIGH } else { others }
}

// The greatest that goes from one of the states to others; too high where a total is.
#[tactic(auto, using(crate::proofs::TotalsLaw::seek_laws))]
pub fn top_rate(totals: &[u32; MOST_STATES], owns: &[u32; MOST_STATES], states: usize) -> u32
    requires { Carried totals.now owns.now × (states ≤ most_states) }
    ensures { result ≡ greatest (λ s. away_of (at totals.now s) (at owns.now s)) states }
{
    let mut top: u32 = 0;
    for s in 0..states {
        top = top.max(away(totals[s], owns[s]));
    }
    top
}
