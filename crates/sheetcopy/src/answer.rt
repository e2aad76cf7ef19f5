// The text that is printed for moves that are to be copied.
ghost use Rattle.std.specs.Prelude.{◌≤◌, length};
ghost use Rattle.csl.specs.Limits.{sheet_bytes};
ghost use Rattle.console.specs.Counts.{IsPrefixLen};
ghost use Rattle.sheetcopy.specs.Prints.{CopyWritten};

use console::Written;

// Writes what the program prints for two texts to the front of `out`. No copy is longer than the moves text that it is made of, so that none
// is refused for the buffer.
//
// All is determined, for all texts: refused or copied, the number, each byte of the printed text, and that `out` is as it was behind it.
pub fn write_copy(moves: &[u8], labels: &[u8], out: &mut [u8]) -> Written
    requires { sheet_bytes ≤ length out.old }
    ensures prefix_len { IsPrefixLen result.length out.new }
    ensures written { CopyWritten moves.now labels.now out.old out.new result }
{
    match clean_copy::copy(moves, labels, out) {
        Ok(length) => Written {
            length,
            refusal: None,
        },
        Err(refusal) => Written {
            length: report::write_refusal(out, u64::from(refusal)),
            refusal: Some(refusal),
        },
    }
}
