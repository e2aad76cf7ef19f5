// Prints the clean copy of the moves whose two texts are in the folder that it is run in, or the number that they are refused with.

#![tactic(auto)]

mod answer;

use answer::write_copy;
use console::{print, read_text};

// Each text has room for one byte more than its limit, so that a longer one is seen to be too long.
fn main(rt: HostRuntime) {
    let mut moves = [0u8; limits::SHEET_BYTES + 1];
    let mut labels = [0u8; limits::SHEET_BYTES + 1];
    let mut out = [0u8; limits::SHEET_BYTES];
    let m = read_text(&rt, b"moves.txt", &mut moves);
    let l = read_text(&rt, b"labels.txt", &mut labels);
    let written = write_copy(&moves[..m], &labels[..l], &mut out);
    print(
        &rt,
        b"sheetcopy",
        &out[..written.length],
        written.refusal.map(u64::from),
    );
}
