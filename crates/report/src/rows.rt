// What a report shows of all its states.
ghost use Rattle.report.specs.Listing.{Complete};

// How many states there are, the depth of all lines, each state's ends and verdict byte, and the states in the order of the second listing.
#[derive(Clone, Copy)]
pub struct Rows<'a> {
    pub states: usize,
    pub depth: u64,
    pub lower: &'a [u32],
    pub upper: &'a [u32],
    pub verdicts: &'a [u8],
    pub order: &'a [u16],
    ghost complete: { Complete states lower.now upper.now verdicts.now order.now },
}
