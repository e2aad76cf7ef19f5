// What stands between `P` and its path formula: a comparison and a threshold.
ghost use Rattle.std.specs.Prelude.{◌≡◌, option_map};
ghost use Rattle.csl.specs.Grammar as csl;
ghost use Rattle.csl.specs.Grammar.{number_of};
ghost use Rattle.verdicts.specs.Paper.{comparison_of};
ghost use Rattle.grammar.specs.Tokens.{tokens};
ghost use Rattle.grammar.specs.Chance.{AmountFits, BoundRead};

use limits::FORMULA_DIGITS;
use verdicts::Comparison;

// The comparison and the threshold of a `P`.
#[derive(Clone, Copy)]
pub struct Bound {
    pub comparison: Comparison,
    pub threshold: u64,
}

// The comparison that a token spells.
#[tactic(auto, using(crate::proofs::WordLaw::mark_laws), unfolding(csl::specs::Grammar::comparison_of))]
fn read_comparison(w: &[u8]) -> Option<Comparison>
    ensures { option_map comparison_of result ≡ csl.comparison_of w.now }
{
    match w {
        b"<" => Some(Comparison::Less),
        b"<=" => Some(Comparison::AtMost),
        b">=" => Some(Comparison::AtLeast),
        b">" => Some(Comparison::More),
        _ => None,
    }
}

// The number that a token spells.
#[tactic(auto, using(crate::proofs::AmountLaw::amount_laws))]
pub fn read_amount(w: &[u8]) -> Option<u64>
    ensures result_value { result ≡ number_of w.now }
    ensures within { AmountFits result }
{
    let number = texts::number(w, FORMULA_DIGITS)?;
    (number.used == w.len()).then_some(number.value)
}

// The comparison and the threshold that the first two tokens spell: csl's reader goes on behind them, or stops there.
#[tactic(auto, using(texts::specs::Behind::behind_tail, crate::specs::Then::comparison_then, crate::specs::Then::number_then))]
pub fn read_bound(s: &[u8]) -> Option<Bound>
    ensures { BoundRead (tokens s.now) result }
{
    let comparison = read_comparison(texts::part(s, b' '))?;
    let rest = texts::after(s, b' ');
    let threshold = read_amount(texts::part(rest, b' '))?;
    Some(Bound {
        comparison,
        threshold,
    })
}
