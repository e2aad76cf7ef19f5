// The text that a program prints for the answer to a job.

#![tactic(auto)]

mod complete;
mod listings;
mod order;
mod row;
mod rows;

ghost use Rattle.std.specs.Prelude.{length, leb};
ghost use Rattle.csl.specs.Report.{refusal_text};
ghost use Rattle.verdicts.specs.Answer.{numbered_answer, reported_states};
ghost use Rattle.decimals.specs.Place.{Room, Wrote};
ghost use Rattle.report.specs.Rendering.{Rendering, Printed};

use complete::has_all;
use decimals::{decimal_length, write_byte, write_bytes, write_decimal};
use rows::Rows;
use verdicts::Accepted;

// Writes the text for an answer to the front of `out`, and answers how long it is: of an accepted job the two listings of its states, whose ends
// and verdict bytes are in the slices, and whose order in the second listing is in `order`; a byte over 2 counts as undecided. A refusal takes
// nothing of the slices.
//
// None where the buffer is too short for the text, or a slice for the states, or the order has a number that is no state's; the buffer is as it
// was then.
// The columns come apart from whoever calls, and their lengths are tested here before they are `Rows`. A refusal is any number, as for
// `write_refusal`.
pub fn render(
    out: &mut [u8],
    answer: Result<Accepted, u64>,
    lower: &[u32],
    upper: &[u32],
    verdicts: &[u8],
    order: &[u16],
) -> Option<usize>
    ensures { Printed (reported_states answer) (numbered_answer answer) lower.now upper.now verdicts.now order.now
        out.old out.new result }
{
    match answer {
        Ok(Accepted { depth, states }) => {
            if has_all(states, lower, upper, verdicts, order) {
                let rows = Rows {
                    states,
                    depth,
                    lower,
                    upper,
                    verdicts,
                    order,
                };
                rows.render(out)
            } else {
                None
            }
        }
        Err(number) => render_refusal(out, number),
    }
}

// The text of a refusal.
fn render_refusal(out: &mut [u8], number: u64) -> Option<usize>
    ensures { Rendering (leb (length (refusal_text number)) (length out.old)) (refusal_text number)
        out.old out.new result }
{
    if out.len() < decimal_length(number) + 9 {
        return None;
    }
    Some(write_refusal(out, number))
}

// Writes the text of a refusal to the front of a buffer that has room for it. It takes any number, since what it promises may not shrink.
#[tactic(auto, using(crate::proofs::FitsLaw::refusal_laws))]
pub fn write_refusal(out: &mut [u8], number: u64) -> usize
    requires { Room 0 (refusal_text number) out.old }
    ensures { Wrote 0 (refusal_text number) out.old out.new result }
{
    let digits = write_bytes(out, 0, b"refused\n");
    let end = write_decimal(out, digits, number);
    write_byte(out, end, b'\n')
}
