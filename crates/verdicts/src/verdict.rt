// What is known of a node at a state.
ghost use Rattle.std.specs.Prelude.{◌≡◌};
ghost use Rattle.csl.specs.Verdicts.{marked, negation, conjunction};
ghost use Rattle.csl.specs.Laws.Decided.{is_decided};
ghost use Rattle.csl.specs.Lent.{verdict_byte};
ghost use Rattle.verdicts.specs.Paper.{verdict_of};
ghost use Rattle.verdicts.specs.Byte.{verdict_at, read_as};

// Yes, no or undecided, each with the byte that stands for it.
#[derive(Clone, Copy, Debug, PartialEq, Eq)]
pub enum Verdict {
    No = 0,
    Yes = 1,
    Undecided = 2,
}

impl Verdict {
    // The verdict of `!`.
    pub fn negate(self) -> Verdict
        ensures { verdict_of result ≡ negation (verdict_of self) }
    {
        match self {
            Verdict::No => Verdict::Yes,
            Verdict::Yes => Verdict::No,
            Verdict::Undecided => Verdict::Undecided,
        }
    }

    // The verdict of `&`.
    pub fn both(self, other: Verdict) -> Verdict
        ensures { verdict_of result ≡ conjunction (verdict_of self) (verdict_of other) }
    {
        match (self, other) {
            (Verdict::No, _) | (_, Verdict::No) => Verdict::No,
            (Verdict::Undecided, _) | (_, Verdict::Undecided) => Verdict::Undecided,
            (Verdict::Yes, Verdict::Yes) => Verdict::Yes,
        }
    }
}

impl From<bool> for Verdict {
    ghost from_gives = { λ mark verdict. verdict_of verdict ≡ marked mark };

    // Yes where a mark holds, else no.
    fn from(mark: bool) -> Verdict {
        if mark { Verdict::Yes } else { Verdict::No }
    }
}

impl From<u8> for Verdict {
    ghost from_gives = { λ byte verdict. verdict_of verdict ≡ verdict_at byte };

    // The verdict that a byte of a lent buffer stands for; a byte that stands for none counts as undecided.
    fn from(byte: u8) -> Verdict {
        match byte {
            0 => Verdict::No,
            1 => Verdict::Yes,
            _ => Verdict::Undecided,
        }
    }
}

impl From<Verdict> for u8 {
    ghost from_gives = { λ verdict byte. byte ≡ verdict_byte (verdict_of verdict) };

    // The byte that stands for a verdict in a lent buffer.
    fn from(verdict: Verdict) -> u8 {
        verdict as u8
    }
}

// Whether a verdict byte says yes or no.
pub fn is_decided(byte: u8) -> bool
    ensures { result ≡ is_decided (verdict_at byte) }
{
    byte <= 1
}

// Whether a verdict byte says that an operand holds, undecided read as yes or as no.
pub fn holds(byte: u8, as_yes: bool) -> bool
    ensures { result ≡ read_as as_yes (verdict_at byte) }
{
    if as_yes { byte != 0 } else { byte == 1 }
}
