// How many bytes are lent for the rows of a job.
ghost use Rattle.std.specs.Prelude.{◌≡◌, ◌≤◌};
ghost use Rattle.csl.specs.Limits.{most_states, most_nodes};
ghost use Rattle.verdict_rows.specs.Row.{rows_length};

use limits::MOST_ROWS;

// How many mark bytes are lent for n states and so many nodes: a row for each node, or MOST_ROWS rows where that is less.
pub fn length(n: usize, nodes: usize) -> usize
    requires { (n ≤ most_states) × (nodes ≤ most_nodes) }
    ensures { result ≡ rows_length n nodes }
{
    nodes.min(MOST_ROWS) * n
}
