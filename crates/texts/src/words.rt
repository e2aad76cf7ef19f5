// Words of letters.
ghost use Rattle.std.specs.Prelude.{◌≡◌};
ghost use Rattle.std.specs.List.{list_all};
ghost use Rattle.csl.specs.Labels.{is_letter, is_word};

// Whether all bytes are letters a to z.
fn letters(w: &[u8]) -> bool
    ensures { result ≡ list_all is_letter w.now }
{
    w.iter().all(|b| b.is_ascii_lowercase())
}

// Whether a text is a word: 1 to 12 letters.
#[tactic(auto, using(crate::proofs::WordLaw::word_laws))]
pub fn is_word(w: &[u8]) -> bool
    ensures { result ≡ is_word w.now }
{
    (1..=limits::MOST_LETTERS).contains(&w.len()) && letters(w)
}
