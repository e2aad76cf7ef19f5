// What a path formula begins with: `U` and hours, `X`, or `V` and two times.
ghost use Rattle.std.specs.Prelude.{◌≡◌};
ghost use Rattle.grammar.specs.Tokens.{tokens};
ghost use Rattle.grammar.specs.PathStart.{hours_at, until_start, between_start, path_start_of};

use crate::hours::read_hundredths;

// `U` and its hours, `X`, or `V` and its two times in their order, all in hundredths.
#[derive(Clone, Copy)]
pub enum PathStart {
    Until(u64),
    Next,
    Between(u64, u64),
}

// The hours that the first token of a rest spells, in hundredths.
fn first_hours(s: &[u8]) -> Option<u64>
    ensures { result ≡ hours_at (tokens s.now) }
{
    read_hundredths(texts::part(s, b' '))
}

// The start of a `U` whose hours are the first token of a rest.
fn until_start(s: &[u8]) -> Option<PathStart>
    ensures { result ≡ until_start (tokens s.now) }
{
    first_hours(s).map(PathStart::Until)
}

// The start of a `V` whose two times are the first tokens of a rest.
#[tactic(auto, using(texts::specs::Behind::behind_tail))]
fn between_start(s: &[u8]) -> Option<PathStart>
    ensures { result ≡ between_start (tokens s.now) }
{
    let from = first_hours(s)?;
    let to = first_hours(texts::after(s, b' '))?;
    Some(PathStart::Between(from, to))
}

// What the first tokens of a rest say a path formula to be, if they begin one.
#[tactic(auto, using(texts::specs::Behind::behind_tail, crate::proofs::WordLaw::mark_laws), unfolding(csl::specs::Grammar::path_head_of, crate::specs::PathStart::path_start_of))]
pub fn read_path_start(s: &[u8]) -> Option<PathStart>
    ensures { result ≡ path_start_of (tokens s.now) }
{
    match texts::part(s, b' ') {
        b"U" => until_start(texts::after(s, b' ')),
        b"X" => Some(PathStart::Next),
        b"V" => between_start(texts::after(s, b' ')),
        _ => None,
    }
}
