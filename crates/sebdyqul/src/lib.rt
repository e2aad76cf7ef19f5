// The checker for programs in C, Rust and other languages: what `library/sebdyqul.h` declares.

#![tactic(auto)]

ghost use Rattle.checker.specs.Job.{job, buffers};
ghost use Rattle.sebdyqul.specs.Called.{Called, CopyCalled};

// Checks a job. An accepted job answers 0 and stores its depth; a refused one answers its number, and then neither the depth nor a buffer
// has changed.
//
// All is determined, for all texts and lengths: the answer, the depth, and every place of every lent buffer. Document 01 leaves open the two
// ends of a `P` (numbers that keep the rules for ends), and the verdicts and later ends that follow from them; here they are those that
// `checker::check` finds, by the chain and the formula alone. Texts and buffers come apart, as the C interface has them.
#[unsafe(no_mangle)]
pub extern "C" fn sebdyqul_check(
    moves: &[u8],
    labels: &[u8],
    formula: &[u8],
    lower: &mut [u32],
    upper: &mut [u32],
    verdicts: &mut [u8],
    order: &mut [u16],
    words: &mut [u64],
    vectors: &mut [u64],
    marks: &mut [u8],
    depth: &mut u64,
) -> u64
    ensures { Called
        (job moves.now labels.now formula.now)
        (buffers lower.old upper.old verdicts.old order.old
        words.old vectors.old marks.old)
        depth.old result depth.new
        (buffers lower.new upper.new verdicts.new order.new
        words.new vectors.new marks.new) }
{
    let checked = checker::check(
        moves, labels, formula, lower, upper, verdicts, order, words, vectors, marks,
    );
    match checked {
        Ok(accepted) => {
            *depth = accepted.depth;
            0
        }
        Err(refusal) => u64::from(refusal),
    }
}

// Makes the clean copy of a moves text. An accepted one answers 0 and stores the copy's length; a refused one answers its number, and then
// neither the length nor a byte of the buffer has changed.
//
// All is determined, for all texts and lengths: the answer, the length, and every byte of the buffer.
#[unsafe(no_mangle)]
pub extern "C" fn sebdyqul_copy(
    moves: &[u8],
    labels: &[u8],
    copy: &mut [u8],
    length: &mut u64,
) -> u64
    ensures { CopyCalled moves.now labels.now copy.old
        length.old result length.new copy.new }
{
    match clean_copy::copy(moves, labels, copy) {
        Ok(bytes) => {
            *length = bytes as u64;
            0
        }
        Err(refused) => u64::from(refused),
    }
}
