// The deepest formula texts, read and tested: a line `ok` for each that comes out as worked out by hand.

#![tactic(auto)]

use formula::Reading;

// A line for each thing that is tried.
fn say(rt: &impl Print, right: bool) {
    let _ = if right {
        rt.write_all(b"ok\n")
    } else {
        rt.write_all(b"no\n")
    };
}

// The label names of all texts.
const NAMES: &[u8] = b",up,dead";

// The text is readable with so many nodes and levels.
fn sized(rt: &impl Print, text: &[u8], nodes: usize, levels: usize) {
    let reading = formula::read(text, NAMES);
    say(
        rt,
        reading.is_some_and(|r| r.count == nodes && r.levels == levels),
    );
}

// The text breaks the grammar.
fn broken(rt: &impl Print, text: &[u8]) {
    say(rt, formula::read(text, NAMES).is_none());
}

// So many nodes are laid out of the text, and pass the tests of labels, limits, order and load.
fn laid(rt: &impl Print, text: &[u8], count: usize) {
    let Some(Reading { nodes, .. }) = formula::read(text, NAMES) else {
        return say(rt, false);
    };
    say(rt, nodes.count == count);
    say(rt, nodes.labels_known(2));
    say(rt, nodes.within_limits());
    say(rt, nodes.in_order());
    say(rt, nodes.load_passes(64000000));
}

// 255 times `!` before a label; 127 times `&` before 128 labels; 63 times `P < 1 X` before a label.
fn deepest(rt: &impl Print) {
    sized(
        rt,
        b"! ! ! ! ! ! ! ! ! ! ! ! ! ! ! ! ! ! ! ! ! ! ! ! ! ! ! ! ! ! ! ! ! ! ! ! ! ! ! ! ! ! ! ! ! ! ! ! ! ! ! ! ! ! ! ! ! ! ! ! ! ! ! ! ! ! ! ! ! ! ! ! ! ! ! ! ! ! ! ! ! ! ! ! ! ! ! ! ! ! ! ! ! ! ! ! ! ! ! ! ! ! ! ! ! ! ! ! ! ! ! ! ! ! ! ! ! ! ! ! ! ! ! ! ! ! ! ! ! ! ! ! ! ! ! ! ! ! ! ! ! ! ! ! ! ! ! ! ! ! ! ! ! ! ! ! ! ! ! ! ! ! ! ! ! ! ! ! ! ! ! ! ! ! ! ! ! ! ! ! ! ! ! ! ! ! ! ! ! ! ! ! ! ! ! ! ! ! ! ! ! ! ! ! ! ! ! ! ! ! ! ! ! ! ! ! ! ! ! ! ! ! ! ! ! ! ! ! ! ! ! ! ! ! ! ! ! ! ! ! ! ! ! ! ! ! ! ! ! ! ! ! ! ! ! a\n",
        256,
        256,
    );
    sized(
        rt,
        b"& & & & & & & & & & & & & & & & & & & & & & & & & & & & & & & & & & & & & & & & & & & & & & & & & & & & & & & & & & & & & & & & & & & & & & & & & & & & & & & & & & & & & & & & & & & & & & & & & & & & & & & & & & & & & & & & & & & & & & & & & & & & & & & a a a a a a a a a a a a a a a a a a a a a a a a a a a a a a a a a a a a a a a a a a a a a a a a a a a a a a a a a a a a a a a a a a a a a a a a a a a a a a a a a a a a a a a a a a a a a a a a a a a a a a a a a a a a a a a a a a a a a a a a a a a a a a a a\n",
        255,
        128,
    );
    sized(
        rt,
        b"P < 1 X P < 1 X P < 1 X P < 1 X P < 1 X P < 1 X P < 1 X P < 1 X P < 1 X P < 1 X P < 1 X P < 1 X P < 1 X P < 1 X P < 1 X P < 1 X P < 1 X P < 1 X P < 1 X P < 1 X P < 1 X P < 1 X P < 1 X P < 1 X P < 1 X P < 1 X P < 1 X P < 1 X P < 1 X P < 1 X P < 1 X P < 1 X P < 1 X P < 1 X P < 1 X P < 1 X P < 1 X P < 1 X P < 1 X P < 1 X P < 1 X P < 1 X P < 1 X P < 1 X P < 1 X P < 1 X P < 1 X P < 1 X P < 1 X P < 1 X P < 1 X P < 1 X P < 1 X P < 1 X P < 1 X P < 1 X P < 1 X P < 1 X P < 1 X P < 1 X P < 1 X P < 1 X P < 1 X a\n",
        64,
        64,
    );
}

// A grammar fault behind more than 64 nodes and 16 levels.
fn deep_faults(rt: &impl Print) {
    broken(
        rt,
        b"! ! ! ! ! ! ! ! ! ! ! ! ! ! ! ! ! ! ! ! ! ! ! ! ! ! ! ! ! ! ! ! ! ! ! ! ! ! ! ! ! ! ! ! ! ! ! ! ! ! ! ! ! ! ! ! ! ! ! ! ! ! ! ! ! ! ! ! ! ! \n",
    );
    broken(
        rt,
        b"& & & & & & & & & & & & & & & & & & & & & & & & & & & & & & & & & a a a a a a a a a a a a a a a a a a a a a a a a a a a a a a a a a\n",
    );
}

// One level too many, and the deepest that are laid out, which pass all tests.
fn deepest_laid(rt: &impl Print) {
    laid(rt, b"! ! ! ! ! ! ! ! ! ! ! ! ! ! ! ! up\n", 0);
    laid(
        rt,
        b"& & & & & & & & & & & & & & & up up up up up up up up up up up up up up up up\n",
        31,
    );
    laid(
        rt,
        b"P < 1 U 1 P < 1 U 1 P < 1 U 1 P < 1 U 1 P < 1 U 1 P < 1 U 1 P < 1 U 1 P < 1 U 1 P < 1 U 1 P < 1 U 1 P < 1 U 1 P < 1 U 1 P < 1 U 1 P < 1 U 1 P < 1 U 1 up up up up up up up up up up up up up up up up\n",
        31,
    );
    laid(
        rt,
        b"P < 1 V 1 2 P < 1 V 1 2 P < 1 V 1 2 P < 1 V 1 2 P < 1 V 1 2 P < 1 V 1 2 P < 1 V 1 2 P < 1 V 1 2 P < 1 V 1 2 P < 1 V 1 2 P < 1 V 1 2 P < 1 V 1 2 P < 1 V 1 2 P < 1 V 1 2 P < 1 V 1 2 up up up up up up up up up up up up up up up up\n",
        31,
    );
    laid(rt, b"! ! ! ! ! ! ! ! ! ! ! ! ! ! ! up\n", 16);
}

// All of them.
fn main(rt: HostRuntime) {
    deepest(&rt);
    deep_faults(&rt);
    deepest_laid(&rt);
}
