// The clean copy of a sheet's moves: the moves text that document 01 described, moves to the own state included, pairs rising and none twice.

#![tactic(auto)]

mod laying;
mod pair;
mod rates;
mod row;
mod whole;

ghost use Rattle.csl.specs.Copy.{Copied};
ghost use Rattle.clean_copy.specs.Answer.{answer_of};

use laying::lay;
use limits::{MOST_MOVES, MOST_STATES};
use rates::Rates;
use verdicts::Refusal;

// Words that are enough for every sheet: two for each move line, and three for each state.
const MOVE_WORDS: usize = 2 * MOST_MOVES;

const COLUMN_WORDS: usize = 3 * MOST_STATES;

// Writes the copy of a sheet's moves to the front of `out`, once the two texts have passed tests 1 to 9, and answers how many bytes it has. Bytes
// beyond the copy are unchanged; where the texts are refused, or the buffer is too short, it is as it was.
//
// All is determined, for all texts and lengths: the answer, and every byte of the buffer.
pub fn copy(moves: &[u8], labels: &[u8], out: &mut [u8]) -> Result<usize, Refusal>
    ensures { Copied moves.now labels.now out.old (answer_of result) out.new }
{
    let sheet = refusals::test_sheet(moves, labels)?;
    let mut words = [0u64; MOVE_WORDS];
    let mut columns = [0u64; COLUMN_WORDS];
    lay(moves, sheet.moves, sheet.states, &mut words, &mut columns);
    let rates = Rates {
        rows: &words[..sheet.moves],
        columns: &columns,
        states: sheet.states,
    };
    rates.copy(out)
}
