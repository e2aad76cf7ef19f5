// Numbers in decimal digits. By hand: they go to a place of a lent buffer, and with no heap nothing stands in between that a `Display` could write to.
ghost use Rattle.std.specs.Prelude.{◌≡◌, ◌∷◌, ◌+◌, ◌≤◌, ◌%◌, length};
ghost use Rattle.csl.specs.Line.{comma};
ghost use Rattle.csl.specs.Report.{decimal};
ghost use Rattle.decimals.specs.Place.{Room, Wrote};

use crate::bytes::write_byte;

// The last digit of a number, as a byte.
fn last_digit(number: u64) -> u8
    ensures { result ≡ 48 + number % 10 }
{
    b'0' + (number % 10) as u8
}

// How many digits a number has.
pub fn decimal_length(number: u64) -> usize
    ensures value { result ≡ length (decimal number) }
    ensures within { result ≤ 20 }
{
    number.max(1).ilog10() as usize + 1
}

// The digits of a number.
pub fn write_decimal(out: &mut [u8], at: usize, number: u64) -> usize
    requires { Room at (decimal number) out.old }
    ensures { Wrote at (decimal number) out.old out.new result }
{
    if number < 10 {
        return write_byte(out, at, last_digit(number));
    }
    let last = write_decimal(out, at, number / 10);
    write_byte(out, last, last_digit(number))
}

// A comma and a number.
pub fn write_field(out: &mut [u8], at: usize, number: u64) -> usize
    requires { Room at (comma ∷ decimal number) out.old }
    ensures { Wrote at (comma ∷ decimal number) out.old out.new result }
{
    let digits = write_byte(out, at, b',');
    write_decimal(out, digits, number)
}
