// A quotient that a plain division does not give: of a product that passes 64 bits.

#![tactic(auto)]

ghost use Rattle.std.specs.Prelude.{◌≡◌, ◌*◌, ◌/◌};
ghost use Rattle.division.specs.Contract.{MulDiv};

// A digit of 21 bits is below this.
const DIGIT: u64 = 1 << 21;

// The quotient of w * x by y, rounded down, where the product need not fit 64 bits: w is taken in two digits.
#[tactic(auto, using(crate::proofs::MulDivLaw::muldiv_laws))]
pub fn muldiv(w: u64, x: u64, y: u64) -> u64
    requires { MulDiv w x y }
    ensures { result ≡ w * x / y }
{
    let t1 = w / DIGIT * x;
    let q1 = t1 / y;
    let r1 = t1 % y;
    let t0 = r1 * DIGIT + w % DIGIT * x;
    q1 * DIGIT + t0 / y
}
