// The marks of a labels text as words, one for each state: the bit of value 2 ^ i is the mark of the i-th label.
ghost use Rattle.std.specs.Prelude.{◌≡◌, ◌≤◌, true, length};
ghost use Rattle.csl.specs.Limits.{most_names};
ghost use Rattle.csl.specs.Labels.{labels_layout, names_of, states_of};
ghost use Rattle.numbers.specs.Filled.{Table};
ghost use Rattle.labels.specs.Left.{marks_left, fields_left};
ghost use Rattle.labels.specs.Words.{marks_word, state_word};

use crate::lines::state_line;

// The word of the `count` marks at the start of s.
fn word(s: &[u8], count: usize) -> u64
    requires { (count ≤ most_names) × (marks_left count s.now ≡ true) }
    ensures { result ≡ marks_word (fields_left count s.now) }
{
    let mut sum: u64 = 0;
    for i in 0..count {
        if s[2 * i] == b'1' {
            sum += 1 << i;
        }
    }
    sum
}

// The words of the states of an accepted text.
#[tactic(auto, using(crate::proofs::StoreLaw::store_laws))]
pub fn store(s: &[u8], names: usize, words: &mut [u64])
    requires { (labels_layout s.now ≡ true) × (names ≡ length (names_of s.now))
        × (names ≤ most_names) × (states_of s.now ≤ length words.old) }
    ensures { Table (state_word s.now) words.old words.new (states_of s.now) }
{
    let end = texts::span(s, b'\n');
    if s.len() <= end {
        return;
    }
    let mut t = &s[end + 1..];
    for j in 0..words.len() {
        let Some(line) = state_line(t, names) else {
            return;
        };
        words[j] = word(&t[line.used - 2 * names..], names);
        t = &t[line.used..];
    }
}
