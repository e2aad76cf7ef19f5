// Tests 10 to 14 and 16, which a formula's text decides over a sheet that passed.
ghost use Rattle.std.specs.Prelude.{◌≡◌, List, ◌≤◌, length, Some, option_map, IfOk};
ghost use Rattle.csl.specs.Text.{Text};
ghost use Rattle.csl.specs.Limits.{most_nodes};
ghost use Rattle.csl.specs.Line.{comma};
ghost use Rattle.csl.specs.Formula as csl;
ghost use Rattle.csl.specs.Grammar.{read_formula};
ghost use Rattle.csl.specs.Refusal.{formula_tests, first_of};
ghost use Rattle.texts.specs.Behind.{parts_behind};
ghost use Rattle.verdicts.specs.Refusal.{refusal_in};
ghost use Rattle.formula.specs.Reading.{reading_of, nodes_read};
ghost use Rattle.formula.specs.Listed.{stored};

use formula::{Nodes, Reading};
use limits::{MOST_LEVELS, MOST_NODES};
use verdicts::Refusal;

// What the tests of a formula answer, and the nodes that it was read into, beside a refusal too: none where its text is no formula, or one that is
// too large.
#[derive(Clone, Copy)]
pub struct TestedFormula {
    pub tested: Result<(), Refusal>,
    pub nodes: Nodes,
}

// Tests 11 to 14 and 16 of a formula that was read, 16 before 14, where there are `names` label names and the uniformisation rate is q.
fn judge(reading: &Reading, names: usize, q: u64) -> Result<(), Refusal>
    requires { reading.now.nodes.count ≤ most_nodes }
    ensures { (ns : List Text) (f : csl.Formula)
        → Some reading.now ≡ reading_of ns (Some f) → names ≡ length ns → refusal_in result ≡ first_of (formula_tests ns q (Some f)) }
{
    if (MOST_NODES < reading.count) | (MOST_LEVELS < reading.levels) {
        return Err(Refusal::LargeFormula);
    }
    if !reading.nodes.labels_known(names) {
        return Err(Refusal::StrangeLabel);
    }
    if !reading.nodes.within_limits() {
        return Err(Refusal::WrongBound);
    }
    if !reading.nodes.in_order() {
        return Err(Refusal::WrongTimes);
    }
    if !reading.nodes.load_passes(q) {
        return Err(Refusal::HighLoad);
    }
    Ok(())
}

// Tests 10 to 14 and 16 of a formula's text over a sheet that passed: its `count` label names, each behind a comma, and its uniformisation rate.
pub fn test_formula(text: &[u8], names: &[u8], count: usize, q: u64) -> TestedFormula
    requires { count ≡ length (parts_behind comma names.now) }
    ensures tested { refusal_in result.tested ≡ first_of (formula_tests (parts_behind comma names.now) q (read_formula text.now)) }
    ensures laid { result.nodes ≡ nodes_read (reading_of (parts_behind comma names.now) (read_formula text.now)) }
    ensures passed { IfOk result.tested (λ _. option_map (stored (parts_behind comma names.now)) (read_formula text.now) ≡ Some result.nodes) }
{
    let Some(reading) = formula::read(text, names) else {
        return TestedFormula {
            tested: Err(Refusal::NoFormula),
            nodes: Nodes::EMPTY,
        };
    };
    TestedFormula {
        tested: judge(&reading, count, q),
        nodes: reading.nodes,
    }
}
