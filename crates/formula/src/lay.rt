// The nodes of a formula laid into their row, by one loop over its tokens, once it is known how many they are.
ghost use Rattle.std.specs.Prelude.{◌≡◌, ◌≤◌};
ghost use Rattle.csl.specs.Limits.{most_nodes};
ghost use Rattle.csl.specs.Line.{space, comma, parts};
ghost use Rattle.texts.specs.Behind.{parts_behind};
ghost use Rattle.grammar.specs.Tokens.{tokens};
ghost use Rattle.formula.specs.Nodes.{path_meant};
ghost use Rattle.formula.specs.Route.{RouteRead};
ghost use Rattle.formula.specs.Laying.{nodes_at, nodes_second, chance_kind, top_kind, behind_path, behind_own, laid};

use crate::nodes::{Kind, Nodes, Path};
use crate::size::size_state;
use crate::waiting::Waiting;
use grammar::{Head, PathStart};
use limits::MOST_NODES;

// How many nodes the state formula at the start of a rest has. Here and below there is an answer for what no formula begins with too, as `nodes_at`
// and `top_kind` of specs/ have it.
fn nodes_of(s: &[u8]) -> usize
    ensures { result ≡ nodes_at (tokens s.now) }
{
    size_state(s).map_or(0, |size| size.nodes)
}

// How many nodes the second of the two state formulas at the start of a rest has.
#[tactic(auto, using(crate::proofs::KindLaw::second_laws))]
fn second_nodes(s: &[u8]) -> usize
    ensures { result ≡ nodes_second (tokens s.now) }
{
    let Some(first) = size_state(s) else {
        return 0;
    };
    nodes_of(&s[s.len() - first.left..])
}

// The path formula at the start of a rest, whose `P` is the node i: the node before it is the last operand, and where there are two, the first
// is the node before all of the second's.
#[tactic(auto, using(crate::proofs::KindLaw::path_laws))]
fn read_path(s: &[u8], i: usize) -> Option<Path>
    ensures { RouteRead i (tokens s.now) result }
{
    let last = i.saturating_sub(1);
    Some(match grammar::read_path_start(s)? {
        PathStart::Until(hundredths) => Path::Until {
            hundredths,
            first: last.saturating_sub(second_nodes(grammar::after_two(s))),
            second: last,
        },
        PathStart::Next => Path::Next(last),
        PathStart::Between(from, to) => Path::Between {
            from,
            to,
            first: last.saturating_sub(second_nodes(grammar::after_three(s))),
            second: last,
        },
    })
}

// The node i of a `P` whose other tokens stand at the start of a rest.
fn chance_kind(s: &[u8], i: usize) -> Kind
    ensures { result ≡ chance_kind i (tokens s.now) }
{
    let Some(bound) = grammar::read_bound(s) else {
        return Kind::Always;
    };
    let Some(path) = read_path(grammar::after_two(s), i) else {
        return Kind::Always;
    };
    Kind::Chance {
        comparison: bound.comparison,
        threshold: bound.threshold,
        path,
    }
}

// The node i that begins with the token w; s is the rest behind w. Its last operand is the node before it, and where it has two, its first is
// the node before all of the second's.
fn top_kind(w: &[u8], s: &[u8], names: &[u8], i: usize) -> Kind
    ensures { result ≡ top_kind (parts_behind comma names.now) i w.now (tokens s.now) }
{
    let before = i.saturating_sub(1);
    match grammar::read_head(w) {
        None | Some(Head::Truth) => Kind::Always,
        Some(Head::Name) => Kind::Label(labels::place(names, w)),
        Some(Head::Bang) => Kind::Negated(before),
        Some(Head::Ampersand) => Kind::Both(before.saturating_sub(second_nodes(s)), before),
        Some(Head::Chance) => chance_kind(s, i),
    }
}

// The rest behind a path formula's own tokens, which begin the rest s.
#[tactic(auto, using(texts::specs::Behind::behind_tail))]
fn behind_path<'a>(path: Path, s: &'a [u8]) -> &'a [u8]
    ensures { tokens result.now ≡ behind_path (path_meant path) (tokens s.now) }
{
    match path {
        Path::Until { .. } => grammar::after_two(s),
        Path::Next(_) => texts::after(s, b' '),
        Path::Between { .. } => grammar::after_three(s),
    }
}

// The rest behind a node's own tokens; s is the rest behind the first of them.
#[tactic(auto, using(texts::specs::Behind::behind_tail))]
fn behind_own<'a>(kind: Kind, s: &'a [u8]) -> &'a [u8]
    ensures { tokens result.now ≡ behind_own kind (tokens s.now) }
{
    match kind {
        Kind::Chance { path, .. } => behind_path(path, grammar::after_two(s)),
        _ => s,
    }
}

// So many nodes, from the tokens of a line: the first token's node is the last, and each node tells the places of its operands.
#[tactic(auto, using(crate::proofs::LayLaw::lay_laws))]
pub fn lay(line: &[u8], names: &[u8], count: usize) -> Nodes
    requires { count ≤ most_nodes }
    ensures { result ≡ laid (parts_behind comma names.now) count (parts space line.now) }
{
    let mut row = Nodes {
        nodes: [Kind::Always; MOST_NODES],
        count,
    };
    let mut waiting = Waiting::EMPTY;
    waiting.push(count.saturating_sub(1));
    let mut w = texts::first_part(line, b' ');
    let mut s = texts::behind_first(line, b' ');
    for _ in 0..count {
        let i = waiting.pop();
        let kind = top_kind(w, s, names, i);
        row.nodes[i] = kind;
        waiting.push_operands(kind);
        let rest = behind_own(kind, s);
        w = texts::part(rest, b' ');
        s = texts::after(rest, b' ');
    }
    row
}
