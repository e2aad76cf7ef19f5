// The verdict byte of one state of a node other than `P`.
ghost use Rattle.std.specs.Prelude.{◌≡◌, ◌<◌};
ghost use Rattle.verdict_rows.specs.Byte.{label_byte, negated_byte, joined_byte};

use verdicts::Verdict;

// Of a label, from the bits of a state's word.
#[tactic(auto, unfolding(crate::specs::Byte::label_byte))]
pub fn of_label(word: u64, label: usize) -> u8
    requires { label < 64 }
    ensures { result ≡ label_byte word label }
{
    u8::from(Verdict::from((word >> label) % 2 == 1))
}

// Of `!`.
#[tactic(auto, unfolding(crate::specs::Byte::negated_byte))]
pub fn of_negation(a: u8) -> u8
    ensures { result ≡ negated_byte a }
{
    u8::from(Verdict::from(a).negate())
}

// Of `&`.
#[tactic(auto, unfolding(crate::specs::Byte::joined_byte))]
pub fn of_both(a: u8, b: u8) -> u8
    ensures { result ≡ joined_byte a b }
{
    u8::from(Verdict::from(a).both(Verdict::from(b)))
}
