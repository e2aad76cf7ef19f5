// The one reading of a formula text: whether it spells a formula, how large that is, and its nodes.
ghost use Rattle.std.specs.Prelude.{◌≡◌, ◌≤◌, IfSome};
ghost use Rattle.csl.specs.Limits.{most_nodes};
ghost use Rattle.csl.specs.Line.{comma};
ghost use Rattle.csl.specs.Grammar.{read_formula};
ghost use Rattle.texts.specs.Behind.{parts_behind};
ghost use Rattle.formula.specs.Reading.{reading_of};

use crate::nodes::Nodes;
use crate::{lay, size};
use limits::{MOST_LEVELS, MOST_NODES};

// The formula that a text spells: its nodes and levels, counted past every limit, and the nodes themselves where there are at most 64 in at
// most 16 levels. Where there are more, there are no nodes, as `reading_of` has it.
#[derive(Clone, Copy)]
pub struct Reading {
    pub count: usize,
    pub levels: usize,
    pub nodes: Nodes,
}

// Reads a formula text whose label names are these, each behind a comma, if it spells a formula.
#[tactic(auto, using(crate::proofs::ReadLaw::read_laws))]
pub fn read(text: &[u8], names: &[u8]) -> Option<Reading>
    ensures value { result ≡ reading_of (parts_behind comma names.now) (read_formula text.now) }
    ensures within { IfSome result (λ r. r.nodes.count ≤ most_nodes) }
{
    let size = size::size_text(text)?;
    let nodes = if size.nodes <= MOST_NODES && size.levels <= MOST_LEVELS {
        lay::lay(texts::first_part(text, b'\n'), names, size.nodes)
    } else {
        Nodes::EMPTY
    };
    Some(Reading {
        count: size.nodes,
        levels: size.levels,
        nodes,
    })
}
