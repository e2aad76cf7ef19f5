// The facts of a moves text that the refusals ask for.
ghost use Rattle.std.specs.Prelude.{◌≡◌, ◌≤◌, List, [], length};
ghost use Rattle.csl.specs.Limits.{sheet_bytes};
ghost use Rattle.csl.specs.Moves as csl;
ghost use Rattle.moves.specs.Totals.{Carried};
ghost use Rattle.moves.specs.Tally.{Tallied};
ghost use Rattle.moves.specs.Facts.{top_of, lines_facts, moves_facts};

use crate::lines::{Line, move_line};
use crate::tally::Tally;
use crate::totals::{MOST_RATE, add_line, top_rate};
use limits::MOST_STATES;

// What the refusals ask of a moves text whose layout is right. `top` is there where all states are known and not too many and the rates are
// good: the greatest sum of rates from one state to others.
#[derive(Clone, Copy)]
pub struct MovesFacts {
    pub head: bool,
    pub count: usize,
    pub strange: bool,
    pub top: Option<u64>,
}

// The greatest sum of rates from one state to others, from the tally and the totals of all lines; none where a state is unknown, where there are
// too many or where the rates are wrong.
#[tactic(auto, using(crate::proofs::TellingLaw::top_unknown, crate::proofs::TellingLaw::few_states))]
fn good_top(
    lines: Tally,
    totals: &[u32; MOST_STATES],
    owns: &[u32; MOST_STATES],
    states: usize,
) -> Option<u64>
    requires { Carried totals.now owns.now }
    ensures { (ms : List csl.Move) → Tallied states ms [] lines totals.now owns.now
        → result ≡ top_of states ms }
{
    if lines.strange | (MOST_STATES < states) {
        return None;
    }
    let top = top_rate(totals, owns, states);
    if lines.still | (MOST_RATE < top) {
        return None;
    }
    Some(top as u64)
}

// The facts of a moves text from its lines after the first, which s has, and whether the first is right; none where the layout of one is broken.
#[tactic(auto, using(crate::proofs::ReadLaw::tally_laws))]
fn tally_lines(head: bool, s: &[u8], states: usize) -> Option<MovesFacts>
    requires { length s.now ≤ sheet_bytes }
    ensures { result ≡ lines_facts states head s.now }
{
    let mut totals = [0u32; MOST_STATES];
    let mut owns = [0u32; MOST_STATES];
    let mut lines = Tally::new();
    // A walk: where a line ends shows only when it is read, so no `for` is plainer.
    let mut t = s;
    while !t.is_empty() {
        let Line {
            from,
            to,
            rate,
            used,
        } = move_line(t)?;
        add_line(&mut totals, &mut owns, from, to, rate);
        lines = lines.add(states as u64, from, to, rate);
        t = &t[used..];
    }
    Some(MovesFacts {
        head,
        count: lines.count,
        strange: lines.strange,
        top: good_top(lines, &totals, &owns, states),
    })
}

// The facts of a moves text; none where its layout is broken. The empty text has no line that could be wrong.
#[tactic(auto, using(crate::proofs::TextLaw::text_laws))]
pub fn read(s: &[u8], states: usize) -> Option<MovesFacts>
    requires { length s.now ≤ sheet_bytes }
    ensures { result ≡ moves_facts states s.now }
{
    if s.is_empty() {
        return tally_lines(false, s, states);
    }
    let end = texts::span(s, b'\n');
    if s.len() <= end {
        return None;
    }
    let head = &s[..end] == b"from,to,rate".as_slice();
    tally_lines(head, &s[end + 1..], states)
}
