// The rates that enter states where the operand holds.
ghost use Rattle.std.specs.Prelude.{◌≡◌, ◌*◌};
ghost use Rattle.csl.specs.Phase.{bit};
ghost use Rattle.verdicts.specs.Byte.{verdict_at, read_as};
ghost use Rattle.next_move.specs.Row.{RowAsked, Entered};

// The sum of the rates that enter states where the operand holds, undecided read as no, and as yes.
#[derive(Clone, Copy)]
pub struct Entering {
    pub low: u64,
    pub high: u64,
}

// What of a rate enters states where the operand holds, by the verdict byte of the state that it enters.
#[tactic(auto, using(crate::proofs::ShareLaw::share_laws))]
pub fn share(rate: u64, byte: u8, as_yes: bool) -> u64
    ensures { result ≡ rate * bit (read_as as_yes (verdict_at byte)) }
{
    if verdicts::holds(byte, as_yes) {
        rate
    } else {
        0
    }
}

// The words of one row: what of their rates enters states where the operand holds.
#[tactic(auto, using(crate::proofs::RowLaw::row_laws))]
pub fn row(moves: &[u64], operand: &[u8], n: usize, begin: usize, end: usize) -> Entering
    requires { RowAsked moves.now operand.now n begin end }
    ensures { Entered moves.now operand.now begin end result }
{
    let mut low: u64 = 0;
    let mut high: u64 = 0;
    for &word in &moves[begin..end] {
        let rate = rate_matrix::rate_of(word);
        let byte = operand[rate_matrix::to_of(word)];
        low += share(rate, byte, false);
        high += share(rate, byte, true);
    }
    Entering { low, high }
}
