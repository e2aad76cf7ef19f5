// The report of a node other than `P`, from the rows of its operands.
ghost use Rattle.std.specs.Prelude.{◌≡◌, ◌+◌};
ghost use Rattle.numbers.specs.Filled.{at};
ghost use Rattle.verdict_rows.specs.Byte.{label_byte, negated_byte};
ghost use Rattle.vectors.specs.Places.{marks_from};
ghost use Rattle.until.specs.Asked.{Still};
ghost use Rattle.decide.specs.Plain.{PlainAsked, LabelAsked, BothAsked, Plain, BothLeaves};

use crate::rows::clear_second;

// Of `tt`.
pub fn always(vectors: &mut [u64], marks: &mut [u8], n: usize) -> usize
    requires { PlainAsked vectors.old marks.old n }
    ensures { Plain (λ s. 1) n vectors.old vectors.new marks.old marks.new result }
{
    verdict_rows::fill_yes(marks, n);
    plain(vectors, marks, n)
}

// Of a label, from the marks among the vector words.
pub fn label(vectors: &mut [u64], place: usize, marks: &mut [u8], n: usize) -> usize
    requires { LabelAsked vectors.old marks.old place n }
    ensures { Plain
        (λ s. label_byte (at vectors.old (marks_from n + s)) place) n
        vectors.old vectors.new marks.old marks.new result }
{
    let from = vectors::marks(n);
    verdict_rows::fill_label(&vectors[from..], place, marks, n);
    plain(vectors, marks, n)
}

// Of `!`, whose operand's row is its own.
pub fn negated(vectors: &mut [u64], marks: &mut [u8], n: usize) -> usize
    requires { PlainAsked vectors.old marks.old n }
    ensures { Plain
        (λ s. negated_byte (at marks.old s)) n
        vectors.old vectors.new marks.old marks.new result }
{
    verdict_rows::negate(marks, n);
    plain(vectors, marks, n)
}

// Of `&`, whose first operand's row is its own; that of the second, behind it, is put back to 0.
pub fn both(vectors: &mut [u64], marks: &mut [u8], n: usize) -> usize
    requires { BothAsked vectors.old marks.old n }
    ensures { BothLeaves n vectors.old vectors.new marks.old marks.new result }
{
    verdict_rows::join(marks, n);
    clear_second(marks, n);
    plain(vectors, marks, n)
}

// The ends of a node other than `P`, which are those that the verdicts of its row stand for; its depth is 0.
fn plain(vectors: &mut [u64], marks: &[u8], n: usize) -> usize
    requires { PlainAsked vectors.old marks.now n }
    ensures still { Still marks.now n vectors.old vectors.new }
    ensures deep { result ≡ 0 }
{
    until::still(vectors, marks, n);
    0
}
