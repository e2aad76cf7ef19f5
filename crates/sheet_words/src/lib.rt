// A sheet that passed its tests, in the lent words. Of the move words the first are its moves in rows by the state that they leave, those to the own
// state without their rates; behind these stand, where it is wanted, their index by the state that they enter, and otherwise the moves as they came.
// In the vector words stand the marks of its labels and what is prepared of its moves, the rates to the own state and the ends of the index's rows
// among it.

#![tactic(auto)]

mod sheet;

ghost use Rattle.labels.specs.Words.{state_word};
ghost use Rattle.numbers.specs.Filled.{Filled};
ghost use Rattle.incoming_moves.specs.Indexed.{IndexAsked};
ghost use Rattle.vectors.specs.Places.{owns_from, marks_from};
ghost use Rattle.sheet_words.specs.Stored.{MarksAsked, IndexStored, StoreAsked, Stored};

pub use sheet::Sheet;

// The marks of the labels at every state, in their place among the vector words.
#[tactic(auto, using(crate::proofs::MarksLaw::marks_stored))]
fn store_marks(labels: &[u8], names: usize, vectors: &mut [u64], n: usize)
    requires { MarksAsked labels.now names vectors.old n }
    ensures { Filled (state_word labels.now) (marks_from n) n vectors.old vectors.new }
{
    let from = vectors::marks(n);
    labels::store(labels, names, &mut vectors[from..]);
}

// The index of the first m words, behind them, where it is wanted; that is a parameter so that the clause says both cases (`IndexStored`).
#[tactic(auto, using(crate::proofs::StoreLaw::index_stored, crate::proofs::StoreLaw::none_stored))]
fn store_index(words: &mut [u64], m: usize, vectors: &mut [u64], n: usize, wanted: bool)
    requires { IndexAsked words.old m vectors.old (owns_from n) n }
    ensures { IndexStored wanted words.old words.new m n vectors.old vectors.new }
{
    if wanted {
        incoming_moves::index(words, m, vectors, vectors::OWNS * n, n);
    }
}

// A sheet's two texts into the lent words, with the index of its moves where that is wanted. The moves are read to behind the place of the rows,
// from where they are laid, and where the index then stands.
pub fn store(sheet: Sheet, words: &mut [u64], vectors: &mut [u64], wanted: bool)
    requires { StoreAsked sheet.moves.now sheet.labels.now words.old vectors.old }
    ensures { Stored wanted sheet.entry.moves.now sheet.entry.labels.now
        words.old words.new vectors.old vectors.new }
{
    let n = sheet.has.states;
    let m = sheet.has.moves;
    moves::store(sheet.moves, &mut words[m..]);
    vectors::prepare(words, m, vectors, n);
    store_index(words, m, vectors, n, wanted);
    store_marks(sheet.labels, sheet.has.names, vectors, n);
}
