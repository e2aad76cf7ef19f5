// The moves of a sheet in rows by the state that they leave.
ghost use Rattle.std.specs.Prelude.{take};
ghost use Rattle.csl.specs.Moves.{moves_of};
ghost use Rattle.clean_copy.specs.Lay.{LayAsked, LaidFor};

// The m moves of a sheet of n states, which passed its tests: in rows in the first words, with columns that say where each row ends and which
// rates go to the own state.
pub fn lay(moves: &[u8], m: usize, n: usize, words: &mut [u64], columns: &mut [u64])
    requires { LayAsked moves.now m n words.old columns.old }
    ensures { LaidFor (moves_of moves.now) n (take m words.new) columns.new }
{
    moves::store(moves, &mut words[m..]);
    rate_matrix::prepare(words, m, columns, 0, n);
}
