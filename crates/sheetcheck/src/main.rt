// Prints the report on the sheet whose three texts are in the folder that it is run in, or the number that it is refused with.

#![tactic(auto)]

mod answer;

use answer::{TEXT_BYTES, write_answer};
use console::{print, read_text};

// Each text has room for one byte more than its limit, so that a longer one is seen to be too long.
fn main(rt: HostRuntime) {
    let mut moves = [0u8; limits::SHEET_BYTES + 1];
    let mut labels = [0u8; limits::SHEET_BYTES + 1];
    let mut formula = [0u8; limits::FORMULA_BYTES + 1];
    let mut out = [0u8; TEXT_BYTES];
    let m = read_text(&rt, b"moves.txt", &mut moves);
    let l = read_text(&rt, b"labels.txt", &mut labels);
    let f = read_text(&rt, b"formula.txt", &mut formula);
    let written = write_answer(&moves[..m], &labels[..l], &formula[..f], &mut out);
    print(
        &rt,
        b"sheetcheck",
        &out[..written.length],
        written.refusal.map(u64::from),
    );
}
