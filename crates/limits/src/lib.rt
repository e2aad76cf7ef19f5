// The limits, units and sizes of documents 01 and 02 as constants of the code. specs/Tied.antt says that each is the number that crates/csl has
// under the same name.

#![tactic(auto)]

// Ends and thresholds count billionths.
pub const BILLION: u64 = 1000000000;

// The most digits of a number in the formula, and in the two texts of the sheet.
pub const FORMULA_DIGITS: usize = 10;

pub const SHEET_DIGITS: usize = 9;

// The most names of labels, and letters of a name.
pub const MOST_NAMES: usize = 16;

pub const MOST_LETTERS: usize = 12;

// The most states and moves.
pub const MOST_STATES: usize = 512;

pub const MOST_MOVES: usize = 4096;

// The most that the rates out of one state add up to.
pub const MOST_RATE: u64 = 64000000;

// The most bytes of the formula, and of each text of the sheet.
pub const FORMULA_BYTES: usize = 512;

pub const SHEET_BYTES: usize = 61440;

// The most nodes of a formula, and levels of them.
pub const MOST_NODES: usize = 64;

pub const MOST_LEVELS: usize = 16;

// The most that a `P` names as its threshold.
pub const MOST_THRESHOLD: u64 = 1000000000;

// Times count hundredths of an hour: an hour, in these.
pub const HOUR: u64 = 100;

// The most that an until names as its hours, and the most of q times them.
pub const MOST_HUNDREDTHS: u64 = 8760 * HOUR;

pub const MOST_RATE_HUNDREDTHS: u64 = 64000000 * HOUR;

// Rates count moves in so many hundredths of an hour.
pub const RATE_HUNDREDTHS: u64 = 1000000 * HOUR;

// The steps of a depth beyond twice the load.
pub const SPARE_STEPS: u64 = 40;

// The lent move words: so many for each move line.
pub const MOVE_PLACES: usize = 2;

// The lent vector words: so many for each state, and so many besides.
pub const VECTOR_PLACES: usize = 10;

pub const VECTOR_SPARE: usize = 512;

// The lent mark bytes: one for each state in so many rows at most.
pub const MOST_ROWS: usize = 17;
