// Deciding the nodes of a formula: the report of a node, at every state.
//
// The report is left in lent memory. The marks begin with the node's row of n verdict bytes; the first 2 * n vector words are its ends, the
// lower ones and then the upper ones; the answer is its depth. A node's operands are decided first, the one into the node's own row and the
// other into the next, so that a formula takes at most as many rows as it has levels. The rows behind a node's own hold 0 before and after.

#![tactic(auto)]

mod chance;
mod node;
mod plain;
mod rows;
mod sheet;

ghost use Rattle.decide.specs.Asked.{DecideAsked, formula_of, Decides};

use formula::{Nodes, Operands};
pub use sheet::LaidSheet;

// The report of a node whose formula has at most so many levels.
// The words and marks stay apart: of a struct of `&mut` slices a clause could say what is left only as `exit.0`, `exit.1.0` and so on.
pub fn decide(
    sheet: LaidSheet,
    formula: &Nodes,
    node: usize,
    levels: usize,
    vectors: &mut [u64],
    marks: &mut [u8],
) -> usize
    requires { DecideAsked sheet.moves.now sheet.index.now vectors.old marks.old formula.now.nodes node levels sheet.n sheet.q }
    ensures { (a : DecideAsked sheet.entry.moves.now sheet.entry.index.now vectors.old marks.old formula.now.nodes node levels sheet.entry.n sheet.entry.q)
        → Decides a.c (formula_of a) sheet.entry.n vectors.old vectors.new marks.old marks.new result }
{
    let kind = formula.nodes[node];
    let below = levels - 1;
    match kind.operands() {
        Operands::None => {}
        Operands::One(a) => {
            decide(sheet, formula, a, below, vectors, marks);
        }
        Operands::Two(a, b) => {
            decide(sheet, formula, a, below, vectors, marks);
            decide(sheet, formula, b, below, vectors, &mut marks[sheet.n..]);
        }
    }
    node::report(sheet, kind, vectors, marks)
}
