// Test 15, which the lengths of the lent buffers decide.
ghost use Rattle.std.specs.Prelude.{◌≡◌, ◌≤◌};
ghost use Rattle.csl.specs.Limits.{most_states, most_moves, most_nodes};
ghost use Rattle.csl.specs.Lent.{is_short, needed};
ghost use Rattle.refusals.specs.Lengths.{lengths_of};

use crate::sheet_tests::Dimensions;

// How many places each lent buffer has.
#[derive(Clone, Copy)]
pub struct Lengths {
    pub lower: usize,
    pub upper: usize,
    pub verdicts: usize,
    pub order: usize,
    pub moves: usize,
    pub vectors: usize,
    pub marks: usize,
}

// Whether a lent buffer is too short for a sheet and so many nodes.
pub fn too_short(lent: Lengths, sheet: Dimensions, nodes: usize) -> bool
    requires { (sheet.states ≤ most_states) × (sheet.moves ≤ most_moves) × (nodes ≤ most_nodes) }
    ensures { result ≡ is_short (lengths_of lent) (needed sheet.states sheet.moves nodes) }
{
    let n = sheet.states;
    let results = (lent.lower < n) | (lent.upper < n) | (lent.verdicts < n) | (lent.order < n);
    let words = (lent.moves < limits::MOVE_PLACES * sheet.moves)
        | (lent.vectors < vectors::length(n));
    results | words | (lent.marks < verdict_rows::length(n, nodes))
}
