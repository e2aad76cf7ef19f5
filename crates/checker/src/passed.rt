// The report of a job that passed all tests.
ghost use Rattle.checker.specs.Job.{buffers};
ghost use Rattle.checker.specs.Report.{DecideAll, Decided, ClearAsked, Cleared, ReportAsked, ReportLeft};

use decide::LaidSheet;
use formula::Nodes;
use sheet_words::Sheet;

// Stores the sheet, with the index of its moves if a node may need a search, and decides the formula over it: its report in the first mark bytes and vector words, and its depth.
fn decide_all(
    sheet: Sheet,
    nodes: &Nodes,
    words: &mut [u64],
    vectors: &mut [u64],
    marks: &mut [u8],
) -> usize
    requires { DecideAll sheet.moves.now sheet.labels.now sheet.has nodes.now words.old vectors.old marks.old }
    ensures { Decided sheet.entry.moves.now sheet.entry.labels.now nodes.now
        words.old words.new vectors.old vectors.new marks.old marks.new result }
{
    let n = sheet.has.states;
    let m = sheet.has.moves;
    let root = nodes.count - 1;
    let bytes = verdict_rows::length(n, nodes.count);
    let searches = !nodes.no_search();
    sheet_words::store(sheet, words, vectors, searches);
    verdict_rows::clear(marks, bytes);
    // Shared as a whole first: of a lent `&mut` the borrow checker covers no part with a start.
    let stored = &words[..];
    let laid = LaidSheet {
        moves: &stored[..m],
        index: &stored[m..m + m],
        n,
        q: sheet.has.q,
    };
    decide::decide(
        laid,
        nodes,
        root,
        limits::MOST_LEVELS,
        vectors,
        &mut marks[..bytes],
    )
}

// Zeros in the move words, their index among them, in the vector words and the mark bytes of a job with n states, m move lines and so many nodes.
// The lent buffers stay apart, as in `check_formula`.
fn clear_all(
    n: usize,
    m: usize,
    count: usize,
    words: &mut [u64],
    vectors: &mut [u64],
    marks: &mut [u8],
)
    requires { ClearAsked n m count words.old vectors.old marks.old }
    ensures { Cleared n m count
        words.old words.new vectors.old vectors.new marks.old marks.new }
{
    let length = vectors::length(n);
    let bytes = verdict_rows::length(n, count);
    zeros::clear_words(words, limits::MOVE_PLACES * m);
    zeros::clear_words(vectors, length);
    verdict_rows::clear(marks, bytes);
}

// Writes the report into the result buffers, leaves zeros in the other lent buffers, and answers the depth. The lent buffers stay apart here as in
// `check_formula`.
pub fn report(
    sheet: Sheet,
    nodes: &Nodes,
    lower: &mut [u32],
    upper: &mut [u32],
    verdicts: &mut [u8],
    order: &mut [u16],
    words: &mut [u64],
    vectors: &mut [u64],
    marks: &mut [u8],
) -> u64
    requires { ReportAsked sheet.moves.now sheet.labels.now sheet.has nodes.now
        (buffers lower.old upper.old verdicts.old order.old words.old vectors.old marks.old) }
    ensures { ReportLeft sheet.entry.moves.now sheet.entry.labels.now nodes.now
        (buffers lower.old upper.old verdicts.old order.old
        words.old vectors.old marks.old)
        (buffers lower.new upper.new verdicts.new order.new
        words.new vectors.new marks.new)
        result }
{
    let n = sheet.has.states;
    let m = sheet.has.moves;
    let count = nodes.count;
    let depth = decide_all(sheet, nodes, words, vectors, marks);
    results::write(vectors, marks, n, lower, upper, verdicts);
    clear_all(n, m, count, words, vectors, marks);
    worst_first::sort(lower, upper, n, order, vectors);
    depth as u64
}
