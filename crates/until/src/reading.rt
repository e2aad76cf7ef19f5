// The sums of a phase that starts from the ends in the words, over two rows of verdict bytes, undecided operand states read as yes or as no.
ghost use Rattle.std.specs.Prelude.{◌≡◌, not, cond, ◌||◌};
ghost use Rattle.phase.specs.Value.{stay_of};
ghost use Rattle.until.specs.Run.{RunAsked, Ran};
ghost use Rattle.until.specs.Asked.{StaysAsked, EndsAsked, LayAsked, Laid, start_gap, ReadAsked, Read, ReadUnless};

use crate::given::{Chain, Operands};

// Where the ends of a reading stand: the lower ones for undecided read as no, the upper ones for undecided read as yes.
fn starts(n: usize, as_yes: bool) -> usize
    ensures { result ≡ cond as_yes n 0 }
{
    if as_yes { n } else { 0 }
}

// Whether a phase holds a state's value as it starts, by whether the operands hold there: where the second does, and where neither does.
fn is_held(first: bool, second: bool) -> bool
    ensures { result ≡ (second || not (first || second)) }
{
    second || !first
}

// What stays put at a state with this exit rate, of q; more than q where its value is held. One number and no Option:
// it stands in a lent word, as `stay_of` has it.
fn stays(held: bool, q: u64, exit: u64) -> u64
    requires { StaysAsked q exit }
    ensures { result ≡ stay_of q exit held }
{
    if held { q + 1 } else { q - exit }
}

// The start vector of a phase, from the ends of its reading, and what stays put.
fn lay(words: &mut [u64], operands: Operands, n: usize, q: u64, as_yes: bool)
    requires { LayAsked words.old operands.first.now operands.second.now n q }
    ensures { Laid operands.entry.first.now operands.entry.second.now n q as_yes words.old words.new }
{
    let from = starts(n, as_yes);
    for s in 0..n {
        let by_first = verdicts::holds(operands.first[s], as_yes);
        let by_second = verdicts::holds(operands.second[s], as_yes);
        words[vectors::NEXT * n + s] = bounds::UNIT * words[from + s];
        words[vectors::STAYS * n + s] = stays(
            is_held(by_first, by_second),
            q,
            words[vectors::EXITS * n + s],
        );
    }
}

// The steps of a phase that has begun, through the last one that counts.
fn run(chain: Chain, words: &mut [u64], last: usize)
    requires { RunAsked chain.moves.now words.old chain.n chain.q last }
    ensures { Ran chain.entry.moves.now chain.entry.n chain.entry.q last words.old words.new }
{
    for _ in 0..last {
        phase::step(chain.moves, words, chain.n, chain.q);
    }
}

// The sums of weight times value over steps 0 to last, in one reading.
pub fn read(chain: Chain, words: &mut [u64], operands: Operands, last: usize, as_yes: bool)
    requires { ReadAsked chain.moves.now words.old operands.first.now operands.second.now chain.n chain.q last }
    ensures { Read chain.entry.moves.now operands.entry.first.now operands.entry.second.now chain.entry.n chain.entry.q last as_yes words.old words.new }
{
    lay(words, operands, chain.n, chain.q, as_yes);
    phase::begin(words, chain.n);
    run(chain, words, last);
}

// How far the two ends of a state are apart at most; more than is near where a state is undecided in either row of verdict bytes.
// One number and no Option, since `gap_of` of bounds/specs/StepValues.antt is one number.
pub fn gap(words: &[u64], operands: Operands, n: usize) -> u64
    requires { EndsAsked words.now operands.first.now operands.second.now n }
    ensures { result ≡ start_gap words.now operands.entry.first.now operands.entry.second.now n }
{
    let mut gap = 0;
    for s in 0..n {
        if 1 < operands.first[s] || 1 < operands.second[s] {
            return bounds::MOST_GAP + 1;
        }
        gap = gap.max(words[n + s].saturating_sub(words[s]));
    }
    gap
}

// The sums with undecided read as yes; where the starts are near, those that stand there stay, and serve both ends.
pub fn read_high(chain: Chain, words: &mut [u64], operands: Operands, last: usize, gap: u64)
    requires { ReadAsked chain.moves.now words.old operands.first.now operands.second.now chain.n chain.q last }
    ensures { ReadUnless chain.entry.moves.now operands.entry.first.now operands.entry.second.now chain.entry.n chain.entry.q last gap words.old words.new }
{
    if bounds::MOST_GAP < gap {
        read(chain, words, operands, last, true);
    }
}
