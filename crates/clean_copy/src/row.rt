// The lines of the copy from one state, whose rates to all states stand in words.
ghost use Rattle.std.specs.Prelude.{◌≡◌, ◌*◌, ◌≤◌, length};
ghost use Rattle.csl.specs.Limits.{most_states};
ghost use Rattle.decimals.specs.Place.{Room, Wrote};
ghost use Rattle.clean_copy.specs.Row.{row_lines};

use crate::pair::Pair;

// How many bytes the lines have.
pub fn row_length(from: usize, rates: &[u64]) -> usize
    requires { length rates.now ≤ most_states }
    ensures value { result ≡ length (row_lines rates.now from (length rates.now)) }
    ensures within { result ≤ 63 * length rates.now }
{
    let mut length: usize = 0;
    for (to, &rate) in rates.iter().enumerate() {
        length += Pair { from, to, rate }.length();
    }
    length
}

// Writes the lines at a place of a buffer.
pub fn write_row(out: &mut [u8], at: usize, from: usize, rates: &[u64]) -> usize
    requires { Room at (row_lines rates.now from (length rates.now)) out.old }
    ensures { Wrote at (row_lines rates.now from (length rates.now)) out.old out.new result }
{
    let mut next = at;
    for (to, &rate) in rates.iter().enumerate() {
        next = Pair { from, to, rate }.write(out, next);
    }
    next
}
