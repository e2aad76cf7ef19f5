// The report of a node of any kind, from the rows of its operands.
ghost use Rattle.decide.specs.Node.{NodeAsked, NodeLeaves};

use crate::sheet::LaidSheet;
use crate::{chance, plain};
use formula::Kind;
use verdict_rows::Bound;

// The first operand's row is the node's own; that of the second, behind it, is put back to 0.
pub fn report(sheet: LaidSheet, kind: Kind, vectors: &mut [u64], marks: &mut [u8]) -> usize
    requires { NodeAsked sheet.moves.now sheet.index.now vectors.old marks.old kind sheet.n sheet.q }
    ensures { (a : NodeAsked sheet.entry.moves.now sheet.entry.index.now vectors.old marks.old kind sheet.entry.n sheet.entry.q)
        → NodeLeaves a vectors.new marks.new result }
{
    let n = sheet.n;
    match kind {
        Kind::Always => plain::always(vectors, marks, n),
        Kind::Label(place) => plain::label(vectors, place, marks, n),
        Kind::Negated(_) => plain::negated(vectors, marks, n),
        Kind::Both(_, _) => plain::both(vectors, marks, n),
        Kind::Chance {
            comparison,
            threshold,
            path,
        } => {
            let bound = Bound {
                comparison,
                threshold: threshold as u32,
            };
            chance::chance(sheet, path, bound, vectors, marks)
        }
    }
}
