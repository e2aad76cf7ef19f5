// The fields of a line, at the start of what is left of a sheet text: a number, and marks.
ghost use Rattle.std.specs.Prelude.{◌≡◌, ◌≤◌, ◌*◌, cond, length, Some, None, IfSome};
ghost use Rattle.texts.specs.Field.{field_at, FieldFits, HasDigits, KnownAt};
ghost use Rattle.texts.specs.Marks.{mark_at, marks_in};

use crate::digits::{Numeral, ZERO, is_digit, number};

// The number of a sheet that stands at the start of t and is ended by the byte `end`; the bytes count it in.
#[tactic(auto, using(crate::proofs::FieldLaw::field_laws))]
pub fn field(t: &[u8], end: u8) -> Option<Numeral>
    ensures value { result ≡ field_at end t.now }
    ensures within { FieldFits (length t.now) result }
{
    let Numeral { value, used } = number(t, limits::SHEET_DIGITS)?;
    if t.len() <= used || t[used] != end {
        return None;
    }
    Some(Numeral {
        value,
        used: used + 1,
    })
}

// The number at the start of a text that has passed its tests: digits, and behind them a byte that is none.
pub fn known_field(t: &[u8]) -> Numeral
    requires { HasDigits t.now }
    ensures { KnownAt t.now result.value result.used }
{
    // Kept: a `for` would be no plainer, since it would want an answer for its end, which these texts never reach.
    let mut value: u64 = 0;
    let mut used: usize = 0;
    while is_digit(t[used] as u64) {
        value = value * 10 + (t[used] as u64 - ZERO);
        used += 1;
    }
    Numeral {
        value,
        used: used + 1,
    }
}

// Whether a 0 or 1 stands at the start of t, and the byte `end` after it.
fn mark(t: &[u8], end: u8) -> bool
    ensures { result ≡ mark_at end t.now }
{
    match t {
        [digit, stop, ..] => *stop == end && (*digit == b'0' || *digit == b'1'),
        _ => false,
    }
}

// The bytes of `count` marks and their line feed at the start of s; none where the line has others.
pub fn marks(s: &[u8], count: usize) -> Option<usize>
    requires { 1 ≤ count }
    ensures value { result ≡ cond (marks_in count s.now) (Some (2 * count)) None }
    ensures within { IfSome result (λ used. used ≤ length s.now) }
{
    let mut t = s;
    for _ in 1..count {
        if !mark(t, b',') {
            return None;
        }
        t = &t[2..];
    }
    if !mark(t, b'\n') {
        return None;
    }
    Some(2 * count)
}
