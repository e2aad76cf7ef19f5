// What the first token of a state formula says, and the rest behind tokens.
ghost use Rattle.std.specs.Prelude.{◌≡◌, length};
ghost use Rattle.csl.specs.Line.{space};
ghost use Rattle.csl.specs.Grammar.{head_of};
ghost use Rattle.texts.specs.Behind.{after_part};
ghost use Rattle.grammar.specs.Head.{head_meant, HeadFits};

// How a state formula begins.
#[derive(Clone, Copy)]
pub enum Head {
    Truth,
    Name,
    Bang,
    Ampersand,
    Chance,
}

// What kind of state formula a first token begins, if it begins one.
#[tactic(auto, using(crate::proofs::WordLaw::word_laws), unfolding(csl::specs::Grammar::head_of))]
pub fn read_head(w: &[u8]) -> Option<Head>
    ensures result_value { head_meant result ≡ head_of w.now }
    ensures within { HeadFits result (length w.now) }
{
    match w {
        b"tt" => Some(Head::Truth),
        _ if texts::is_word(w) => Some(Head::Name),
        b"!" => Some(Head::Bang),
        b"&" => Some(Head::Ampersand),
        b"P" => Some(Head::Chance),
        _ => None,
    }
}

// The rest after the first two tokens.
pub fn after_two<'a>(s: &'a [u8]) -> &'a [u8]
    ensures { result.now ≡ after_part space (after_part space s.now) }
{
    texts::after(texts::after(s, b' '), b' ')
}

// The rest after the first three tokens.
pub fn after_three<'a>(s: &'a [u8]) -> &'a [u8]
    ensures { result.now ≡ after_part space (after_part space (after_part space s.now)) }
{
    texts::after(after_two(s), b' ')
}
