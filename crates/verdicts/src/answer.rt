// What an accepted job answers with.
#[derive(Clone, Copy, Debug, PartialEq, Eq)]
pub struct Accepted {
    // The depth in the lines of its report.
    pub depth: u64,
    // How many states the report has.
    pub states: usize,
}
