// The names of a first line, each behind a comma.
ghost use Rattle.std.specs.Prelude.{◌≡◌, true, ◌≤◌, length};
ghost use Rattle.csl.specs.Text.{every};
ghost use Rattle.csl.specs.Line.{comma, line_feed};
ghost use Rattle.csl.specs.Labels.{is_name, place_of, no_repeat, labels_head, names_of};
ghost use Rattle.texts.specs.Span.{span_of};
ghost use Rattle.texts.specs.Behind.{parts_behind};
ghost use Rattle.labels.specs.FirstLine.{commas_in, is_first_line};

// How many commas stand in s: as many as there are names in a first line.
pub fn commas(s: &[u8]) -> usize
    ensures value { result ≡ commas_in s.now }
    ensures within { result ≤ length s.now }
{
    s.iter().filter(|b| **b == b',').count()
}

// The names of a first line that is right, of `first` bytes, each behind its comma: a part of the labels text.
#[tactic(auto, using(crate::proofs::PartLaw::first_counted, crate::proofs::PartLaw::names_behind))]
pub fn names_part<'a>(labels: &'a [u8], first: usize) -> &'a [u8]
    requires { (labels_head labels.now ≡ true) × (first ≡ span_of line_feed labels.now) }
    ensures { parts_behind comma result.now ≡ names_of labels.now }
{
    texts::behind_first(&labels[..first], b',')
}

// Where the name w stands among names, each behind a comma; how many they are where it is none of them, as csl's `place_of`
// answers.
#[tactic(auto, using(crate::proofs::NamesLaw::name_laws))]
pub fn place(names: &[u8], w: &[u8]) -> usize
    ensures { result ≡ place_of (parts_behind comma names.now) w.now }
{
    // Kept as a walk that counts: the check proves nothing of a chain on std's `split` (`count`, `all` and `take_while` were tried).
    let mut t = names;
    let mut i: usize = 0;
    while !t.is_empty() {
        if texts::part(t, b',') == w {
            return i;
        }
        i += 1;
        t = texts::after(t, b',');
    }
    i
}

// Whether w may name a label.
#[tactic(auto, using(crate::proofs::FirstLineLaw::first_laws))]
fn is_name(w: &[u8]) -> bool
    ensures { result ≡ is_name w.now }
{
    if !texts::is_word(w) {
        return false;
    }
    w != b"tt".as_slice() && w != b"state".as_slice()
}

// Whether all names of s, each behind its comma, may name labels.
#[tactic(auto, using(crate::proofs::NamesLaw::name_laws))]
fn good_names(s: &[u8]) -> bool
    ensures { result ≡ every is_name (parts_behind comma s.now) }
{
    // A walk, as in `place`.
    let mut t = s;
    while !t.is_empty() {
        if !is_name(texts::part(t, b',')) {
            return false;
        }
        t = texts::after(t, b',');
    }
    true
}

// Whether no name of s, each behind its comma, stands there twice.
#[tactic(auto, using(crate::proofs::NamesLaw::name_laws))]
fn no_repeat(s: &[u8]) -> bool
    ensures { result ≡ no_repeat (parts_behind comma s.now) }
{
    // A walk, as in `place`.
    let mut t = s;
    while !t.is_empty() {
        let w = texts::part(t, b',');
        t = texts::after(t, b',');
        if place(t, w) < commas(t) {
            return false;
        }
    }
    true
}

// Whether a first line is `state` and good names.
#[tactic(auto, using(crate::proofs::FirstLineLaw::first_laws))]
pub fn first_line(line: &[u8]) -> bool
    ensures { result ≡ is_first_line line.now }
{
    if texts::first_part(line, b',') != b"state".as_slice() {
        return false;
    }
    let s = texts::behind_first(line, b',');
    if limits::MOST_NAMES < commas(s) {
        return false;
    }
    good_names(s) && no_repeat(s)
}
