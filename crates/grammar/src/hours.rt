// Hours with decimals, in hundredths of an hour.
ghost use Rattle.std.specs.Prelude.{◌≡◌, ◌<◌, IfSome};
ghost use Rattle.csl.specs.Hours.{hundredths_of};
ghost use Rattle.grammar.specs.Hours.{decimals_in};

use crate::chance::read_amount;
use limits::HOUR;

// The hundredths that the bytes behind a point stand for, where they are decimals: one or two digits, the last of them not 0. One alone stands
// for tenths.
#[tactic(auto, using(crate::proofs::HoursLaw::decimal_laws))]
fn read_decimals(s: &[u8]) -> Option<u64>
    ensures value { result ≡ decimals_in s.now }
    ensures within { IfSome result (λ v. v < 100) }
{
    match s {
        [tenths @ b'1'..=b'9'] => Some(10 * (*tenths - b'0') as u64),
        [tenths @ b'0'..=b'9', hundredths @ b'1'..=b'9'] => Some(
            (10 * (*tenths - b'0') + (*hundredths - b'0')) as u64,
        ),
        _ => None,
    }
}

// The hundredths of an hour that a token spells: a number of hours, and behind it, perhaps, a point and decimals.
#[tactic(auto, using(crate::proofs::HoursLaw::hour_laws))]
pub fn read_hundredths(w: &[u8]) -> Option<u64>
    ensures { result ≡ hundredths_of w.now }
{
    let hours = read_amount(texts::first_part(w, b'.'))?;
    match texts::behind_first(w, b'.') {
        [] => Some(hours * HOUR),
        [_, decimals @ ..] => Some(hours * HOUR + read_decimals(decimals)?),
    }
}
