// Tests that are put to each node of a formula.
ghost use Rattle.std.specs.Prelude.{◌≡◌, ◌≤◌, leb, take};
ghost use Rattle.csl.specs.Limits.{most_nodes, most_hundredths};
ghost use Rattle.csl.specs.Formula.{times_pass, phases_pass, times_in_order};
ghost use Rattle.formula.specs.Nodes.{path_meant};
ghost use Rattle.formula.specs.Pass.{Labels, Limits, Order, Load, NoSearch, light_of, unsearched, passed, all_passed};

use crate::nodes::{Kind, Nodes, Path};
use limits::{MOST_HUNDREDTHS, MOST_RATE_HUNDREDTHS, MOST_THRESHOLD};

// The rate times the hundredths of an hour is within its limit.
fn light(rate: u64, hundredths: u64) -> bool
    ensures { result ≡ light_of rate hundredths }
{
    rate == 0 || hundredths <= MOST_RATE_HUNDREDTHS / rate
}

impl Path {
    // Whether the hours of a path formula are within their limit. `X` has none.
    fn hours_pass(self) -> bool
        ensures { result ≡ times_pass (λ t. leb t most_hundredths) (path_meant self) }
    {
        match self {
            Path::Until { hundredths, .. } => hundredths <= MOST_HUNDREDTHS,
            Path::Next(_) => true,
            Path::Between { from, to, .. } => from <= MOST_HUNDREDTHS && to <= MOST_HUNDREDTHS,
        }
    }

    // Whether the first of two times of a path formula does not exceed the second.
    fn in_order(self) -> bool
        ensures { result ≡ times_in_order (path_meant self) }
    {
        match self {
            Path::Until { .. } | Path::Next(_) => true,
            Path::Between { from, to, .. } => from <= to,
        }
    }

    // Whether the rate times the hours of each phase of a path formula is within its limit. Between two times there is one phase, to the second,
    // where the first is 0; otherwise one goes to the first and one on to the second.
    fn load_passes(self, rate: u64) -> bool
        ensures { result ≡ phases_pass (light_of rate) (path_meant self) }
    {
        match self {
            Path::Until { hundredths, .. } => light(rate, hundredths),
            Path::Next(_) => true,
            Path::Between { from: 0, to, .. } => light(rate, to),
            Path::Between { from, to, .. } => light(rate, from)
                && light(rate, to.saturating_sub(from)),
        }
    }

    // Whether no search along the moves may decide a `P`: it may with the threshold 0, where an until of one phase has time.
    fn no_search(self, threshold: u64) -> bool
        ensures { result ≡ unsearched threshold (path_meant self) }
    {
        threshold != 0
            || match self {
                Path::Until { hundredths, .. } => hundredths == 0,
                Path::Next(_) => true,
                Path::Between { from, to, .. } => from != 0 || to == 0,
            }
    }
}

impl Kind {
    // Whether a label's place is below a number of names.
    fn label_known(self, names: usize) -> bool
        ensures { result ≡ passed (Labels names) self }
    {
        match self {
            Kind::Label(place) => place < names,
            _ => true,
        }
    }

    // Whether a threshold and hours are within their limits.
    fn within_limits(self) -> bool
        ensures { result ≡ passed Limits self }
    {
        match self {
            Kind::Chance {
                threshold,
                path,
                ..
            } => threshold <= MOST_THRESHOLD && path.hours_pass(),
            _ => true,
        }
    }

    // Whether two times are in order.
    fn in_order(self) -> bool
        ensures { result ≡ passed Order self }
    {
        match self {
            Kind::Chance { path, .. } => path.in_order(),
            _ => true,
        }
    }

    // Whether a rate times the hours of each phase is within its limit.
    fn load_passes(self, rate: u64) -> bool
        ensures { result ≡ passed (Load rate) self }
    {
        match self {
            Kind::Chance { path, .. } => path.load_passes(rate),
            _ => true,
        }
    }

    // Whether no search along the moves may decide it.
    fn no_search(self) -> bool
        ensures { result ≡ passed NoSearch self }
    {
        match self {
            Kind::Chance {
                threshold,
                path,
                ..
            } => path.no_search(threshold),
            _ => true,
        }
    }
}

// Each test is one question of std's `all`: a method that takes the question would ask its callers for what each closure promises.
impl Nodes {
    // The formula's own nodes.
    fn own(&self) -> &[Kind]
        requires { self.now.count ≤ most_nodes }
        ensures { result.now ≡ take self.now.count self.now.nodes }
    {
        &self.nodes[..self.count]
    }

    // Whether every label's place is below a number of names.
    pub fn labels_known(&self, names: usize) -> bool
        requires { self.now.count ≤ most_nodes }
        ensures { result ≡ all_passed (Labels names) self.now }
    {
        self.own().iter().all(|kind| kind.label_known(names))
    }

    // Whether all thresholds and hours are within their limits.
    pub fn within_limits(&self) -> bool
        requires { self.now.count ≤ most_nodes }
        ensures { result ≡ all_passed Limits self.now }
    {
        self.own().iter().all(|kind| kind.within_limits())
    }

    // Whether everywhere two times are in order.
    pub fn in_order(&self) -> bool
        requires { self.now.count ≤ most_nodes }
        ensures { result ≡ all_passed Order self.now }
    {
        self.own().iter().all(|kind| kind.in_order())
    }

    // Whether a rate times the hours of each phase is within its limit.
    pub fn load_passes(&self, rate: u64) -> bool
        requires { self.now.count ≤ most_nodes }
        ensures { result ≡ all_passed (Load rate) self.now }
    {
        self.own().iter().all(|kind| kind.load_passes(rate))
    }

    // Whether no search along the moves may decide any of them.
    pub fn no_search(&self) -> bool
        requires { self.now.count ≤ most_nodes }
        ensures { result ≡ all_passed NoSearch self.now }
    {
        self.own().iter().all(|kind| kind.no_search())
    }
}
