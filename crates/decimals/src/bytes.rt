// Bytes at a place in a lent buffer.
ghost use Rattle.std.specs.Prelude.{[], ◌∷◌};
ghost use Rattle.decimals.specs.Place.{Room, Wrote};

// One byte.
#[tactic(auto, using(crate::specs::Writing::wrote_byte))]
pub fn write_byte(out: &mut [u8], at: usize, byte: u8) -> usize
    requires { Room at (byte ∷ []) out.old }
    ensures { Wrote at (byte ∷ []) out.old out.new result }
{
    out[at] = byte;
    at + 1
}

// All bytes of `text`.
pub fn write_bytes(out: &mut [u8], at: usize, text: &[u8]) -> usize
    requires { Room at text.now out.old }
    ensures { Wrote at text.now out.old out.new result }
{
    let end = at + text.len();
    out[at..end].copy_from_slice(text);
    end
}
