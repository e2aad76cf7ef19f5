// The parts of a text that a mark sets apart, as parts of the caller's slice. A rest begins with a mark, behind which its first part stands.
ghost use Rattle.std.specs.Prelude.{◌≡◌, ◌==◌, ◌≤◌, length, drop};
ghost use Rattle.std.specs.List.{position_or_len};
ghost use mathlib.Core.List.{head_d, []};
ghost use Rattle.csl.specs.Line.{parts};
ghost use Rattle.texts.specs.Span.{span_of};
ghost use Rattle.texts.specs.Behind.{parts_behind, behind_first, after_part};

// How many bytes at the start of a text are no `mark`, as std counts them.
fn unmarked(s: &[u8], mark: u8) -> usize
    ensures value { result ≡ position_or_len (λ b. b == mark) s.now }
    ensures within { result ≤ length s.now }
{
    s.iter().take_while(|b| **b != mark).count()
}

// How many bytes stand before the first `mark`: all of them where there is none.
#[tactic(auto, using(crate::proofs::ScanLaw::span_counted))]
pub fn span(s: &[u8], mark: u8) -> usize
    ensures value { result ≡ span_of mark s.now }
    ensures within { result ≤ length s.now }
{
    unmarked(s, mark)
}

// The first part of a text.
pub fn first_part<'a>(t: &'a [u8], mark: u8) -> &'a [u8]
    ensures { result.now ≡ head_d (parts mark t.now) [] }
{
    &t[..span(t, mark)]
}

// The rest behind the first part of a text.
pub fn behind_first<'a>(t: &'a [u8], mark: u8) -> &'a [u8]
    ensures { result.now ≡ behind_first mark t.now }
{
    &t[span(t, mark)..]
}

// What stands behind the first byte of a rest, which is its mark; nothing of an empty one.
fn behind_mark<'a>(s: &'a [u8]) -> &'a [u8]
    ensures { result.now ≡ drop 1 s.now }
{
    match s {
        [] => s,
        [_, t @ ..] => t,
    }
}

// The first part of a rest, empty where there is none.
pub fn part<'a>(s: &'a [u8], mark: u8) -> &'a [u8]
    ensures { result.now ≡ head_d (parts_behind mark s.now) [] }
{
    first_part(behind_mark(s), mark)
}

// The rest after the first part of a rest.
#[tactic(auto, unfolding(crate::specs::Behind::after_part))]
pub fn after<'a>(s: &'a [u8], mark: u8) -> &'a [u8]
    ensures { result.now ≡ after_part mark s.now }
{
    behind_first(behind_mark(s), mark)
}
