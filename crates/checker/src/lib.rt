// The checker: three texts and the lent buffers in, one finished report or one refusal number out.

#![tactic(auto)]

mod passed;

ghost use Rattle.std.specs.Prelude.{◌≡◌, false, None};
ghost use Rattle.csl.specs.Lent.{lengths};
ghost use Rattle.csl.specs.Limits.{formula_bytes};
ghost use Rattle.csl.specs.Refusal.{out_of_bytes, sheet_tests, first_of, outcome};
ghost use Rattle.csl.specs.Finished.{Finished};
ghost use Rattle.verdicts.specs.Answer.{answer_of, reported_states};
ghost use Rattle.checker.specs.Job.{job, buffers, states_in};
ghost use Rattle.checker.specs.Leaves.{leaves};
ghost use Rattle.checker.specs.Checked.{Ended};

use refusals::{Lengths, TestedFormula};
use sheet_words::Sheet;
use verdicts::{Accepted, Refusal};

// Checks a job whose sheet passed its tests: those of its formula and of the lent lengths, then the report. The lent buffers stay apart: of a struct
// of them a clause could say what is left only as `exit.0`, `exit.1.0` and so on.
fn check_formula(
    sheet: Sheet,
    formula: &[u8],
    lower: &mut [u32],
    upper: &mut [u32],
    verdicts: &mut [u8],
    order: &mut [u16],
    words: &mut [u64],
    vectors: &mut [u64],
    marks: &mut [u8],
) -> Result<Accepted, Refusal>
    requires bytes { out_of_bytes formula_bytes formula.now ≡ false }
    requires passed { first_of (sheet_tests sheet.moves.now sheet.labels.now) ≡ None }
    ensures { Ended
        (job sheet.entry.moves.now sheet.entry.labels.now formula.now)
        (buffers lower.old upper.old verdicts.old order.old
        words.old vectors.old marks.old)
        result
        (buffers lower.new upper.new verdicts.new order.new
        words.new vectors.new marks.new) }
{
    let has = sheet.has;
    let names = labels::names_part(sheet.labels, has.first);
    let TestedFormula { tested, nodes } = refusals::test_formula(formula, names, has.names, has.q);
    tested?;
    let lent = Lengths {
        lower: lower.len(),
        upper: upper.len(),
        verdicts: verdicts.len(),
        order: order.len(),
        moves: words.len(),
        vectors: vectors.len(),
        marks: marks.len(),
    };
    if refusals::too_short(lent, has, nodes.count) {
        return Err(Refusal::ShortBuffer);
    }
    let depth = passed::report(
        sheet, &nodes, lower, upper, verdicts, order, words, vectors, marks,
    );
    Ok(Accepted {
        depth,
        states: has.states,
    })
}

// Checks a job. With n states and m move lines the caller lends n lower and upper numbers, verdict bytes and numbers for the order, two move
// words for each line, the vector words that crates/vectors lays out, and 17 × n mark bytes, or n for each node where that is less.
//
// `finished` leaves open what document 01 does: the two ends of a `P` (numbers that keep the rules for ends), and the verdicts and later ends that
// follow from them. All else is determined, for all texts and lengths: refused or accepted, the number or the depth, and every place of every
// lent buffer. `found` says which ends they are, by the chain and the formula alone: so move lines in another order leave the same bytes, and so do
// repeated pairs in the results (`same_bytes` and `same_report` of specs/Alike); and where other marks are lent, long enough as well, all other
// buffers are left the same (`same_but_for_marks` of specs/OtherMarks). Texts and buffers come apart: README names this function as it is.
pub fn check(
    moves: &[u8],
    labels: &[u8],
    formula: &[u8],
    lower: &mut [u32],
    upper: &mut [u32],
    verdicts: &mut [u8],
    order: &mut [u16],
    words: &mut [u64],
    vectors: &mut [u64],
    marks: &mut [u8],
) -> Result<Accepted, Refusal>
    ensures finished { Finished
        (job moves.now labels.now formula.now)
        (buffers lower.old upper.old verdicts.old order.old
        words.old vectors.old marks.old)
        (answer_of result)
        (buffers lower.new upper.new verdicts.new order.new
        words.new vectors.new marks.new) }
    ensures found { buffers lower.new upper.new verdicts.new order.new
        words.new vectors.new marks.new
        ≡ leaves (job moves.now labels.now formula.now)
        (buffers lower.old upper.old verdicts.old order.old
        words.old vectors.old marks.old) }
    ensures counted { reported_states result ≡ states_in (outcome
        (job moves.now labels.now formula.now)
        (lengths
        (buffers lower.old upper.old verdicts.old order.old
        words.old vectors.old marks.old))) }
{
    if refusals::out_of_bytes(formula, limits::FORMULA_BYTES) {
        return Err(Refusal::OutOfBytes);
    }
    let has = refusals::test_sheet(moves, labels)?;
    let sheet = Sheet { moves, labels, has };
    check_formula(
        sheet, formula, lower, upper, verdicts, order, words, vectors, marks,
    )
}
