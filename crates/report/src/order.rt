// The order of the second listing: its numbers are those of states.
ghost use Rattle.std.specs.Prelude.{◌≡◌, ◌≤◌, length};
ghost use Rattle.report.specs.Listing.{are_states};

// Whether each number of the order is that of a state.
pub fn are_states(states: usize, order: &[u16]) -> bool
    requires { states ≤ length order.now }
    ensures { result ≡ are_states states order.now }
{
    order[..states].iter().all(|s| usize::from(*s) < states)
}
