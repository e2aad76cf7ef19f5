// State lines: a number, and a mark for each name.
ghost use Rattle.std.specs.Prelude.{◌≡◌, true, length};
ghost use Rattle.labels.specs.StateLine.{state_line_at, StateLineFits, state_lines_at};

use texts::Numeral;

// The state line at the start of t, of so many names: its number, and its bytes with the line feed.
#[tactic(auto, using(crate::proofs::LineLaw::row_laws))]
pub fn state_line(t: &[u8], names: usize) -> Option<Numeral>
    ensures value { result ≡ state_line_at names t.now }
    ensures within { StateLineFits names (length t.now) result }
{
    if names == 0 {
        return texts::field(t, b'\n');
    }
    let Numeral { value, used } = texts::field(t, b',')?;
    let marks = texts::marks(&t[used..], names)?;
    Some(Numeral {
        value,
        used: used + marks,
    })
}

// The lines after the first: how many, and whether their states are 0, 1, 2 and so on.
#[derive(Clone, Copy)]
pub struct StateLines {
    pub count: usize,
    pub turn: bool,
}

// The state lines that s has; none where one of them is broken.
#[tactic(auto, using(crate::proofs::LinesLaw::count_laws))]
pub fn state_lines(s: &[u8], names: usize) -> Option<StateLines>
    ensures { result ≡ state_lines_at names 0 true s.now }
{
    // Kept as a walk that counts: where a line ends shows only when it is read, so no `for` is plainer.
    let mut t = s;
    let mut count: usize = 0;
    let mut turn = true;
    while !t.is_empty() {
        let Numeral { value, used } = state_line(t, names)?;
        turn &= value == count as u64;
        count += 1;
        t = &t[used..];
    }
    Some(StateLines { count, turn })
}
