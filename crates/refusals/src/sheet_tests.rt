// Tests 1 to 9, which a sheet's two texts decide.
ghost use Rattle.std.specs.Prelude.{◌≡◌, IfOk, Some};
ghost use Rattle.csl.specs.Text.{Text};
ghost use Rattle.csl.specs.Refusal.{out_of_bytes, three_to_nine, sheet_tests, first_of};
ghost use Rattle.verdicts.specs.Refusal.{refusal_in};
ghost use Rattle.refusals.specs.Sheet.{Facts, dimensions_of};

use labels::LabelsFacts;
use limits::{MOST_MOVES, MOST_STATES, SHEET_BYTES};
use moves::MovesFacts;
use verdicts::Refusal;

// What a sheet that passed has: its states, moves and label names, the bytes of its labels' first line, and the uniformisation rate.
#[derive(Clone, Copy, Debug, PartialEq, Eq)]
pub struct Dimensions {
    pub states: usize,
    pub moves: usize,
    pub names: usize,
    pub first: usize,
    pub q: u64,
}

// Whether a text is empty or over its byte limit.
pub fn out_of_bytes(text: &[u8], most: usize) -> bool
    ensures { result ≡ out_of_bytes most text.now }
{
    text.is_empty() || most < text.len()
}

// Tests 3 to 9, from the facts of two texts whose layouts are right: the uniformisation rate, where none of them holds. 7 and 8 are "never given
// again".
fn judge(m: MovesFacts, l: LabelsFacts) -> Result<u64, Refusal>
    ensures tested { (moves labels : Text) → Facts moves labels m l → refusal_in result ≡ first_of (three_to_nine moves labels) }
    ensures told { IfOk result (λ q. m.top ≡ Some q) }
{
    if !(m.head & l.head) {
        return Err(Refusal::WrongFirstLine);
    }
    if (l.states == 0) | (MOST_STATES < l.states) | !l.turn {
        return Err(Refusal::WrongStates);
    }
    if MOST_MOVES < m.count {
        return Err(Refusal::ManyMoves);
    }
    if m.strange {
        return Err(Refusal::StrangeState);
    }
    m.top.ok_or(Refusal::WrongRate)
}

// Tests 1 to 9 of a sheet's two texts: what the sheet has, where none of them holds.
pub fn test_sheet(moves: &[u8], labels: &[u8]) -> Result<Dimensions, Refusal>
    ensures tested { refusal_in result ≡ first_of (sheet_tests moves.now labels.now) }
    ensures told { IfOk result (λ sheet. sheet ≡ dimensions_of moves.now labels.now) }
{
    if out_of_bytes(moves, SHEET_BYTES) || out_of_bytes(labels, SHEET_BYTES) {
        return Err(Refusal::OutOfBytes);
    }
    let Some(l) = labels::read(labels) else {
        return Err(Refusal::BrokenLayout);
    };
    let Some(m) = moves::read(moves, l.states) else {
        return Err(Refusal::BrokenLayout);
    };
    let q = judge(m, l)?;
    Ok(Dimensions {
        states: l.states,
        moves: m.count,
        names: l.names,
        first: l.first,
        q,
    })
}
