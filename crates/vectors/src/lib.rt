// The lent vector words: where each thing stands in them, and how they are prepared for the steps of a phase.
//
// With n states the words are columns of n: the lower ends and the upper ones, the values, the values one step on, the sums, what stays put,
// the exit rates, the row ends, the rates to the own state; then the weights, with the total of the weights and the number of the step behind
// them, and the labels' marks last. specs/Places.antt has each place by name; a column's constant times n is where it begins.

#![tactic(auto)]

ghost use Rattle.std.specs.Prelude.{◌≡◌, ◌≤◌, length};
ghost use Rattle.csl.specs.Limits.{most_states};
ghost use Rattle.vectors.specs.Places.{total_at, number_at, marks_from, vector_length};
ghost use Rattle.vectors.specs.Prepared.{PrepareAsked, Laid, Cleared, WorkAsked};

// The columns between the ends, which are the first two, and the marks. That they begin where specs/Places.antt has them is shown there.
pub const VALUES: usize = 2;

pub const NEXT: usize = 3;

pub const SUMS: usize = 4;

pub const STAYS: usize = 5;

pub const EXITS: usize = 6;

pub const ENDS: usize = 7;

pub const OWNS: usize = 8;

pub const WEIGHTS: usize = 9;

// The marks end the words.
const MARKS: usize = limits::VECTOR_PLACES - 1;

// Where the marks of the labels begin. That n is at most 512 stands at each of these four: a type for n alone would be made and taken apart in every
// crate above.
pub fn marks(n: usize) -> usize
    requires { n ≤ most_states }
    ensures { result ≡ marks_from n }
{
    MARKS * n + limits::VECTOR_SPARE
}

// Where the total of the weights stands.
pub fn total(n: usize) -> usize
    requires { n ≤ most_states }
    ensures { result ≡ total_at n }
{
    marks(n) - 2
}

// Where the number of the step stands.
pub fn number(n: usize) -> usize
    requires { n ≤ most_states }
    ensures { result ≡ number_at n }
{
    marks(n) - 1
}

// How many words are lent.
pub fn length(n: usize) -> usize
    requires { n ≤ most_states }
    ensures { result ≡ vector_length n }
{
    limits::VECTOR_PLACES * n + limits::VECTOR_SPARE
}

// The m move words that stand behind the first m, laid in rows as the first m; and the words before the marks, prepared: the exit rates and the
// ends of the rows in their places, then the rates to the own state, which the laid words no longer have, and 0 in all others.
pub fn prepare(moves: &mut [u64], m: usize, words: &mut [u64], n: usize)
    requires { PrepareAsked moves.old m words.old n }
    ensures { Laid moves.old moves.new m n words.old words.new }
{
    zeros::clear_from(words, 0, marks(n));
    rate_matrix::prepare(moves, m, words, EXITS * n, n);
}

// The words that are worked in, back to 0.
pub fn clear_work(words: &mut [u64], n: usize)
    requires { WorkAsked words.old n }
    ensures { Cleared n words.old words.new }
{
    zeros::clear_from(words, VALUES * n, EXITS * n - VALUES * n);
    zeros::clear_from(words, WEIGHTS * n, marks(n) - WEIGHTS * n);
}
