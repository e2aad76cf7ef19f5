// What the search begins with: the states of the second operand in the queue, and the number of those that are yet to be reached.
ghost use Rattle.std.specs.Prelude.{◌≡◌};
ghost use Rattle.csl.specs.Chain.{sum_to};
ghost use Rattle.numbers.specs.Filled.{at};
ghost use Rattle.reachability.specs.Asked.{ReachAsked, rows_reached, words_reached, tail_reached, SeedAsked, SeedLeaves, CountAsked};

// State s, if it is found, is reached, and is queued at `tail`. The queue then ends at what is returned. That it
// is found is a parameter so that the clauses say both cases (`tail_reached`).
// The words and rows stay apart: of a struct of `&mut` slices a clause could say what is left only as `exit.0`, `exit.1.0` and so on.
#[tactic(auto, using(crate::proofs::ReachLaw::reach_laws))]
fn reach(found: bool, words: &mut [u64], rows: &mut [u8], n: usize, s: usize, tail: usize) -> usize
    requires { ReachAsked found words.old rows.old n s tail }
    ensures value { result ≡ tail_reached found tail }
    ensures queue { words.new ≡ words_reached found words.old n s tail }
    ensures bytes { rows.new ≡ rows_reached found rows.old n s }
{
    if found {
        words[vectors::VALUES * n + tail] = s as u64;
        rows[s] = 0;
        rows[n + s] = 1;
        return tail + 1;
    }
    tail
}

// The states of the second operand, reached and queued. The queue then ends at what is returned.
#[tactic(auto, using(crate::proofs::SeedLaw::seed_laws))]
pub fn seed(words: &mut [u64], rows: &mut [u8], n: usize) -> usize
    requires { SeedAsked words.old rows.old n }
    ensures { SeedLeaves n words.old rows.old words.new rows.new result }
{
    let mut tail: usize = 0;
    for s in 0..n {
        let found = rows[n + s] == 1;
        tail = reach(found, words, rows, n, s, tail);
    }
    tail
}

// How many states are yet to be reached: those whose first byte is 1.
pub fn open_states(rows: &[u8], n: usize) -> usize
    requires { CountAsked rows.now n }
    ensures { result ≡ sum_to (at rows.now) n }
{
    rows[..n].iter().filter(|byte| **byte == 1).count()
}
