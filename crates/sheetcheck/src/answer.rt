// The text that is printed for a job.
ghost use Rattle.std.specs.Prelude.{◌≤◌, length};
ghost use Rattle.console.specs.Counts.{IsPrefixLen};
ghost use Rattle.checker.specs.Job.{job};
ghost use Rattle.sheetcheck.specs.Prints.{Answered};

use console::Written;
use limits::MOST_STATES;

// The lengths of move words, vector words and mark bytes that are enough for every job.
const MOVE_WORDS: usize = limits::MOVE_PLACES * limits::MOST_MOVES;

const VECTOR_WORDS: usize = limits::VECTOR_PLACES * MOST_STATES + limits::VECTOR_SPARE;

const MARK_BYTES: usize = limits::MOST_ROWS * MOST_STATES;

// The length of a buffer that has room for every printed text.
pub const TEXT_BYTES: usize = 65536;

// Writes what the program prints for three texts to the front of `out`. The buffers that it lends are long enough for every job, so that no
// job is refused for them.
//
// Open, as in document 01, are the two ends of a `P` in the printed lines (numbers that keep the rules for ends), and the verdicts and later
// ends that follow from them. All else is determined, for all texts: refused or accepted, the number, the lines with all that they show
// besides, and that `out` is as it was behind them.
pub fn write_answer(moves: &[u8], labels: &[u8], formula: &[u8], out: &mut [u8]) -> Written
    requires { 65536 ≤ length out.old }
    ensures prefix_len { IsPrefixLen result.length out.new }
    ensures answered { Answered (job moves.now labels.now formula.now)
        out.old out.new result }
{
    let mut lower = [0u32; MOST_STATES];
    let mut upper = [0u32; MOST_STATES];
    let mut verdicts = [0u8; MOST_STATES];
    let mut order = [0u16; MOST_STATES];
    let mut words = [0u64; MOVE_WORDS];
    let mut vectors = [0u64; VECTOR_WORDS];
    let mut marks = [0u8; MARK_BYTES];
    let checked = checker::check(
        moves,
        labels,
        formula,
        &mut lower,
        &mut upper,
        &mut verdicts,
        &mut order,
        &mut words,
        &mut vectors,
        &mut marks,
    );
    let numbered = checked.map_err(u64::from);
    let rendered = report::render(out, numbered, &lower, &upper, &verdicts, &order);
    Written {
        length: rendered.unwrap_or(0),
        refusal: checked.err(),
    }
}
