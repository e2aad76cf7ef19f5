// The moves of a text as words.
ghost use Rattle.std.specs.Prelude.{◌≡◌, ◌≤◌, true, ◌&&◌, length};
ghost use Rattle.csl.specs.Moves as csl;
ghost use Rattle.texts.specs.LineAt.{line_at, is_ended_at};
ghost use Rattle.numbers.specs.Filled.{Table};
ghost use Rattle.moves.specs.Words.{move_word, WordAt};

// The word of the move line at the start of t, a line that has passed its tests, and its bytes with the line feed.
#[tactic(auto, using(crate::proofs::KnownLaw::known_laws))]
fn known_line(t: &[u8]) -> (u64, usize)
    requires { (is_ended_at t.now && csl.move_line (line_at t.now)) ≡ true }
    ensures { WordAt t.now result.0 result.1 }
{
    let from = texts::known_field(t);
    let u = &t[from.used..];
    let to = texts::known_field(u);
    let w = &u[to.used..];
    let rate = texts::known_field(w);
    (
        rate_matrix::pack(from.value, to.value, rate.value),
        from.used + to.used + rate.used,
    )
}

// The moves of an accepted text, one word each.
#[tactic(auto, using(crate::proofs::StoreLaw::store_laws))]
pub fn store(s: &[u8], words: &mut [u64])
    requires { (csl.moves_layout s.now ≡ true) × (length (csl.moves_of s.now) ≤ length words.old) }
    ensures { Table
        (move_word s.now) words.old words.new (length (csl.moves_of s.now)) }
{
    let end = texts::span(s, b'\n');
    if s.len() <= end {
        return;
    }
    let mut t = &s[end + 1..];
    for j in 0..words.len() {
        if t.is_empty() {
            return;
        }
        let (word, used) = known_line(t);
        words[j] = word;
        t = &t[used..];
    }
}
