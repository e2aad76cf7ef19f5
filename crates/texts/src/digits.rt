// Numbers in decimal digits.
ghost use Rattle.std.specs.Prelude.{◌≡◌, ◌≤◌, length};
ghost use Rattle.csl.specs.Limits.{formula_digits};
ghost use Rattle.csl.specs.Number.{is_digit};
ghost use Rattle.texts.specs.Digits.{number_at, settled, NumberFits};

// A number as it stands at the start of a text: its value, and how many bytes it takes.
#[derive(Clone, Copy)]
pub struct Numeral {
    pub value: u64,
    pub used: usize,
}

// The bytes of the digits 0 and 9, in 64 bits: a digit is tested and counted in the size of the number that it becomes part of.
// Kept: with `is_ascii_digit`, which tests in 8 bits, storing the moves took 12 in a hundred longer.
pub const ZERO: u64 = b'0' as u64;

const NINE: u64 = b'9' as u64;

// Whether a byte, in 64 bits, is a digit.
pub fn is_digit(b: u64) -> bool
    ensures { result ≡ is_digit b }
{
    ZERO <= b && b <= NINE
}

// The number that the `used` digits at the start of s spell: none without a digit, or where a 0 leads another digit.
fn settle(s: &[u8], value: u64, used: usize) -> Option<Numeral>
    requires { used ≤ length s.now }
    ensures { result ≡ settled s.now value used }
{
    if used == 0 || 1 < used && s[0] == b'0' {
        return None;
    }
    Some(Numeral { value, used })
}

// The number that the digits at the start of s spell, of at most `most` digits.
pub fn number(s: &[u8], most: usize) -> Option<Numeral>
    requires { most ≤ formula_digits }
    ensures value { result ≡ number_at most s.now }
    ensures within { NumberFits (length s.now) result }
{
    let end = s.len().min(most);
    let mut value: u64 = 0;
    for used in 0..end {
        let b = s[used] as u64;
        if !is_digit(b) {
            return settle(s, value, used);
        }
        value = value * 10 + (b - ZERO);
    }
    if end < s.len() && is_digit(s[end] as u64) {
        return None;
    }
    settle(s, value, end)
}
