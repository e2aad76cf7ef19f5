// Whether the numbers of a report are all there.
ghost use Rattle.std.specs.Prelude.{◌≡◌};
ghost use Rattle.report.specs.Listing.{has_all};

use crate::order::are_states;

// Whether each of the states has its ends, its verdict byte and a place in the order, and the order has states alone.
pub fn has_all(states: usize, lower: &[u32], upper: &[u32], verdicts: &[u8], order: &[u16]) -> bool
    ensures { result ≡ has_all states lower.now upper.now verdicts.now order.now }
{
    states <= lower.len()
        && states <= upper.len()
        && states <= verdicts.len()
        && states <= order.len()
        && are_states(states, order)
}
