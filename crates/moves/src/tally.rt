// What move lines say, line by line, but for the totals of their rates.
ghost use Rattle.std.specs.Prelude.{◌≡◌, ◌<◌};
ghost use Rattle.csl.specs.Limits.{sheet_bytes};
ghost use Rattle.moves.specs.Tally.{begun, added};

// What the lines so far say: how many; a state past the last; a rate of 0.
#[derive(Clone, Copy)]
pub struct Tally {
    pub count: usize,
    pub strange: bool,
    pub still: bool,
}

impl Tally {
    // Before the first line.
    pub fn new() -> Tally
        ensures { result ≡ begun }
    {
        Tally {
            count: 0,
            strange: false,
            still: false,
        }
    }

    // One line more. Most lines have nothing to tell but their rate, and are done with first.
    #[tactic(auto, using(crate::proofs::TallyLaw::plain_line))]
    pub fn add(self, states: u64, from: u64, to: u64, rate: u64) -> Tally
        requires { self.count < sheet_bytes }
        ensures { result ≡ added states self from to rate }
    {
        let count = self.count + 1;
        if from < states && to < states && 0 < rate {
            return Tally { count, ..self };
        }
        Tally {
            count,
            strange: self.strange | (states <= from) | (states <= to),
            still: self.still | (rate == 0),
        }
    }
}
