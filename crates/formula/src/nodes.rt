// The nodes of a formula in a row, by value: operands before their node, the outermost node last.
use limits::MOST_NODES;
use verdicts::Comparison;

// A path formula: an until with its hours and the places of its two operands; the next move with the place of its operand; or an until between
// two times, with them and the places of its two operands. Hours and times are in hundredths of an hour.
#[derive(Clone, Copy)]
pub enum Path {
    Until {
        hundredths: u64,
        first: usize,
        second: usize,
    },
    Next(usize),
    Between {
        from: u64,
        to: u64,
        first: usize,
        second: usize,
    },
}

// A node: a label by its place among the names, operands by their places in the row.
#[derive(Clone, Copy)]
pub enum Kind {
    Always,
    Label(usize),
    Negated(usize),
    Both(usize, usize),
    Chance {
        comparison: Comparison,
        threshold: u64,
        path: Path,
    },
}

// The nodes of a formula in a row; the first `count` are its own. There is no heap, so the row has room for the most that a formula may have.
// That `count` is at most 64 stays in the clauses: as a ghost field it would ask for a proof in `stored` and `laid`, whose laws hold at any size.
#[derive(Clone, Copy)]
pub struct Nodes {
    pub nodes: [Kind; MOST_NODES],
    pub count: usize,
}

impl Nodes {
    // No nodes.
    pub const EMPTY: Nodes = Nodes {
        nodes: [Kind::Always; MOST_NODES],
        count: 0,
    };
}
