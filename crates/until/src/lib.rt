// The two ends of an until at every state, and those of the phase before one that begins later, in their places among the lent vector words;
// all other words are left as they were.

#![tactic(auto)]

mod ends;
mod given;
mod reading;

ghost use Rattle.std.specs.Prelude.{◌≡◌};
ghost use Rattle.until.specs.Asked.{error_of, BothAsked, Both, SummedAsked, Summed, PhaseAsked, Phased, UntilAsked, Until, EarlierAsked, Earlier};

pub use ends::still;
use given::{Chain, Operands};

// What the values of the lower start may lack of those of the upper one, where they serve both ends.
fn error(gap: u64) -> u64
    ensures { result ≡ error_of gap }
{
    if gap <= bounds::MOST_GAP {
        bounds::UNIT * gap
    } else {
        0
    }
}

// The two ends of each state from those that stand in the words and the weights there: the lower one with undecided operand states read as
// no, the upper one with them read as yes; one reading serves both where it starts from ends that are near.
fn both_ends(chain: Chain, words: &mut [u64], operands: Operands, last: usize)
    requires { BothAsked chain.moves.now words.old operands.first.now operands.second.now chain.n chain.q last }
    ensures { Both chain.entry.moves.now operands.entry.first.now operands.entry.second.now chain.entry.n chain.entry.q last words.old words.new }
{
    let gap = reading::gap(words, operands, chain.n);
    reading::read(chain, words, operands, last, false);
    phase::lower_ends(words, chain.n);
    reading::read_high(chain, words, operands, last, gap);
    phase::upper_ends(words, chain.n, last, error(gap));
    ends::point(words, operands, chain.n);
}

// The two ends of each state from the sums over steps 0 to depth, where the load is above 0.
fn summed(chain: Chain, words: &mut [u64], operands: Operands, a: u64, depth: usize)
    requires { SummedAsked chain.moves.now words.old operands.first.now operands.second.now chain.n chain.q a depth }
    ensures { Summed chain.entry.moves.now operands.entry.first.now operands.entry.second.now chain.entry.n chain.entry.q a depth words.old words.new }
{
    phase::weigh(words, chain.n, a, depth);
    let last = phase::last_step(words, chain.n, depth);
    both_ends(chain, words, operands, last);
    vectors::clear_work(words, chain.n);
}

// The two ends of each state after a phase over t hundredths of an hour that starts from those in the words, and the depth; with load 0 they
// stay.
fn phase_over(chain: Chain, words: &mut [u64], operands: Operands, t: u64) -> usize
    requires { PhaseAsked chain.moves.now words.old operands.first.now operands.second.now chain.n chain.q t }
    ensures { Phased chain.entry.moves.now operands.entry.first.now operands.entry.second.now chain.entry.n chain.entry.q t words.old words.new result }
{
    let a = chain.q * t;
    let depth = phase::depth_of(a);
    if 0 < a {
        summed(chain, words, operands, a, depth);
    }
    depth
}

// The two ends of each state for an until over t hundredths of an hour, and the depth; the words are prepared, and each operand's verdict
// bytes are one row. The parts of `Chain` and `Operands` come apart here and in `earlier` (given.rt).
pub fn until(
    moves: &[u64],
    words: &mut [u64],
    first: &[u8],
    second: &[u8],
    n: usize,
    q: u64,
    t: u64,
) -> usize
    requires { UntilAsked moves.now words.old first.now second.now n q t }
    ensures { Until moves.now first.now second.now n q t
        words.old words.new result }
{
    ends::still(words, second, n);
    phase_over(Chain { moves, n, q }, words, Operands { first, second }, t)
}

// The two ends of each state for an until that begins after t hundredths of an hour, and the depth of that earlier phase: the words are
// prepared and hold the ends of the until from there on, and `none` is a row of verdict bytes that are all 0, for no state is a goal yet.
pub fn earlier(
    moves: &[u64],
    words: &mut [u64],
    first: &[u8],
    none: &[u8],
    n: usize,
    q: u64,
    t: u64,
) -> usize
    requires { EarlierAsked moves.now words.old first.now none.now n q t }
    ensures { Earlier moves.now first.now n q t
        words.old words.new result }
{
    ends::restrict(words, first, n);
    let operands = Operands {
        first,
        second: none,
    };
    phase_over(Chain { moves, n, q }, words, operands, t)
}
