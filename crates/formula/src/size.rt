// Whether a text spells a formula, and how large it is: a reader that keeps nothing but counts, for texts of any depth.
ghost use Rattle.std.specs.Prelude.{◌≡◌, ℕ, ◌+◌, length};
ghost use Rattle.csl.specs.Line.{space, parts};
ghost use Rattle.csl.specs.Formula.{Comparison, negated, both};
ghost use Rattle.csl.specs.Grammar.{head_of, state, single, pair, path, read_formula};
ghost use Rattle.grammar.specs.Fixed.{read};
ghost use Rattle.grammar.specs.Tokens.{tokens};
ghost use Rattle.formula.specs.Size.{size_of, SizeFits, extent_of};

use grammar::{Head, PathStart};

// What reading a state formula found: the bytes left behind it, and its nodes and levels.
#[derive(Clone, Copy)]
pub struct Size {
    pub left: usize,
    pub nodes: usize,
    pub levels: usize,
}

// A state formula at the start of a rest.
#[cycle(size_headed_size_pair_size_path_size_single_size_state)]
#[tactic(auto, using(crate::proofs::SizeLaw::state_laws))]
pub fn size_state(s: &[u8]) -> Option<Size>
    ensures value { result ≡ size_of (read (tokens s.now)) }
    ensures within { SizeFits result (length s.now) }
{
    size_headed(texts::part(s, b' '), texts::after(s, b' '))
}

// A state formula whose first token is w, and s the rest behind it.
#[cycle(size_headed_size_pair_size_path_size_single_size_state)]
#[tactic(auto, using(crate::proofs::SizeLaw::head_laws), unfolding(csl::specs::Grammar::state, csl::specs::Formula::nodes, csl::specs::Formula::levels))]
fn size_headed(w: &[u8], s: &[u8]) -> Option<Size>
    ensures value { result ≡ size_of (state read w.now (head_of w.now) (tokens s.now)) }
    ensures within { SizeFits result (1 + (length w.now + length s.now)) }
{
    match grammar::read_head(w)? {
        Head::Truth | Head::Name => Some(Size {
            left: s.len(),
            nodes: 1,
            levels: 1,
        }),
        Head::Bang => size_single(s),
        Head::Ampersand => size_pair(s),
        Head::Chance => {
            grammar::read_bound(s)?;
            size_path(grammar::after_two(s))
        }
    }
}

// A node over the state formula at the start of a rest. Here and in `size_pair` a `return` stands in the place of `?`, with which the deepest texts took
// up to two thirds more stack.
#[cycle(size_headed_size_pair_size_path_size_single_size_state)]
#[tactic(auto, using(crate::proofs::SizeLaw::single_sized))]
fn size_single(s: &[u8]) -> Option<Size>
    ensures value { result ≡ size_of (single read negated (tokens s.now)) }
    ensures within { SizeFits result (2 + length s.now) }
{
    let Some(operand) = size_state(s) else {
        return None;
    };
    Some(Size {
        left: operand.left,
        nodes: 1 + operand.nodes,
        levels: 1 + operand.levels,
    })
}

// A node over the two state formulas at the start of a rest.
#[cycle(size_headed_size_pair_size_path_size_single_size_state)]
#[tactic(auto, using(crate::proofs::SizeLaw::pair_laws))]
fn size_pair(s: &[u8]) -> Option<Size>
    ensures value { result ≡ size_of (pair read both (tokens s.now)) }
    ensures within { SizeFits result (2 + length s.now) }
{
    let Some(first) = size_state(s) else {
        return None;
    };
    let Some(second) = size_state(&s[s.len() - first.left..]) else {
        return None;
    };
    Some(Size {
        left: second.left,
        nodes: 1 + (first.nodes + second.nodes),
        levels: 1 + first.levels.max(second.levels),
    })
}

// A path formula at the start of a rest, with the `P` before it.
#[cycle(size_headed_size_pair_size_path_size_single_size_state)]
#[tactic(auto, using(crate::proofs::SizeLaw::path_laws))]
fn size_path(s: &[u8]) -> Option<Size>
    ensures by_index { (c : Comparison) → (p : ℕ) → result ≡ size_of (path read c p (tokens s.now)) }
    ensures within { SizeFits result (2 + length s.now) }
{
    match grammar::read_path_start(s)? {
        PathStart::Until(_) => size_pair(grammar::after_two(s)),
        PathStart::Next => size_single(texts::after(s, b' ')),
        PathStart::Between(_, _) => size_pair(grammar::after_three(s)),
    }
}

// A state formula at the start of a line, where no mark stands before its first token as one does in a rest.
#[tactic(auto, using(crate::proofs::TextLaw::line_sized))]
fn size_line(line: &[u8]) -> Option<Size>
    ensures { result ≡ size_of (read (parts space line.now)) }
{
    size_headed(
        texts::first_part(line, b' '),
        texts::behind_first(line, b' '),
    )
}

// How large the formula is that a text spells, whatever its length and depth; nothing is left behind it.
#[tactic(auto, using(crate::proofs::TextLaw::text_laws))]
pub fn size_text(text: &[u8]) -> Option<Size>
    ensures { result ≡ extent_of (read_formula text.now) }
{
    let n = texts::span(text, b'\n');
    if text.len() - n != 1 {
        return None;
    }
    size_line(&text[..n]).filter(|size| size.left == 0)
}
