// Move lines: three numbers.
ghost use Rattle.std.specs.Prelude.{◌≡◌, length};
ghost use Rattle.moves.specs.Line.{move_at, LineFits};

// A line of three numbers, and its bytes with the line feed.
#[derive(Clone, Copy)]
pub struct Line {
    pub from: u64,
    pub to: u64,
    pub rate: u64,
    pub used: usize,
}

// The move line at the start of t.
#[tactic(auto, using(crate::proofs::LineLaw::line_laws))]
pub fn move_line(t: &[u8]) -> Option<Line>
    ensures value { result ≡ move_at t.now }
    ensures within { LineFits (length t.now) result }
{
    let from = texts::field(t, b',')?;
    let u = &t[from.used..];
    let to = texts::field(u, b',')?;
    let w = &u[to.used..];
    let rate = texts::field(w, b'\n')?;
    Some(Line {
        from: from.value,
        to: to.value,
        rate: rate.value,
        used: from.used + to.used + rate.used,
    })
}
