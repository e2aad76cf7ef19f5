// Which states lead along moves to a state of an until's second operand, through states of its first: a search that goes against the moves, from
// the states of the second operand, and comes to each state and each move at most once.
//
// Each state has two bytes. The first is 1 where the first operand holds and the state is not reached yet, the second is 1 where it is reached.

#![tactic(auto)]

mod begin;
mod spread;

ghost use Rattle.std.specs.Prelude.{◌≡◌};
ghost use Rattle.reachability.specs.Searched.{SearchAsked, Searched};

// The search: `rows` begins with a row of verdict bytes of the first operand and one of the second, none of them undecided, and the second row
// then says which states lead there. The index is that of the incoming moves, the ends of whose rows the words hold; in the words the column of
// the values holds zeros, is the queue, and holds zeros again.
pub fn search(index: &[u64], words: &mut [u64], rows: &mut [u8], n: usize)
    requires { SearchAsked index.now words.old rows.old n }
    ensures searched { (a : SearchAsked index.now words.old rows.old n)
        → Searched a.c n rows.old rows.new }
    ensures same { words.new ≡ words.old }
{
    let queued = begin::seed(words, rows, n);
    let most = queued + begin::open_states(rows, n);
    spread::spread(index, words, rows, n, queued, most);
    zeros::clear_from(words, vectors::VALUES * n, n);
}
