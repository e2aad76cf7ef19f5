// The facts of a labels text that the refusals ask for.
ghost use Rattle.std.specs.Prelude.{◌≡◌};
ghost use Rattle.labels.specs.Facts.{labels_facts};

use crate::lines::{StateLines, state_lines};
use crate::names::{commas, first_line};

// What the refusals ask of a labels text whose layout is right, how many names it has, and the bytes of its first line.
#[derive(Clone, Copy)]
pub struct LabelsFacts {
    pub head: bool,
    pub states: usize,
    pub turn: bool,
    pub names: usize,
    pub first: usize,
}

// The empty text: its layout is right, and it has no first line.
const BARE: LabelsFacts = LabelsFacts {
    head: false,
    states: 0,
    turn: true,
    names: 0,
    first: 0,
};

// The facts of a labels text; none where its layout is broken.
#[tactic(auto, using(crate::proofs::LinesLaw::facts_laws))]
pub fn read(s: &[u8]) -> Option<LabelsFacts>
    ensures { result ≡ labels_facts s.now }
{
    if s.is_empty() {
        return Some(BARE);
    }
    let first = texts::span(s, b'\n');
    if s.len() <= first {
        return None;
    }
    let line = &s[..first];
    let names = commas(line);
    let StateLines { count, turn } = state_lines(&s[first + 1..], names)?;
    Some(LabelsFacts {
        head: first_line(line),
        states: count,
        turn,
        names,
        first,
    })
}
