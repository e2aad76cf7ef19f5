// The places that wait for their nodes while a formula is laid.
ghost use Rattle.std.specs.Prelude.{◌≡◌, ◌+◌, ◌≤◌, ◌<◌, get_or};
ghost use Rattle.formula.specs.Waiting.{waiting_room, wait_for, wait_over};

use crate::nodes::Kind;
use crate::operands::Operands;
use limits::MOST_NODES;

// Places wait from `from` on, the next first. Each node takes one place and adds at most two, so for 64 nodes there is room on either side of
// the middle, where the first place is put.
#[derive(Clone, Copy)]
pub struct Waiting {
    places: [usize; 2 * MOST_NODES],
    from: usize,
}

impl Waiting {
    // No place waits.
    pub const EMPTY: Waiting = Waiting {
        places: [0; 2 * MOST_NODES],
        from: MOST_NODES + 1,
    };

    // One place more, before the others.
    pub fn push(&mut self, place: usize)
        requires { (1 ≤ self.old.from) × (self.old.from ≤ waiting_room) }
        ensures { self.new ≡ wait_for place self.old }
    {
        self.from -= 1;
        self.places[self.from] = place;
    }

    // The places of a node's operands before the others, the first operand's first.
    pub fn push_operands(&mut self, kind: Kind)
        requires { (2 ≤ self.old.from) × (self.old.from ≤ waiting_room) }
        ensures { self.new ≡ wait_over kind self.old }
    {
        match kind.operands() {
            Operands::None => {}
            Operands::One(operand) => self.push(operand),
            Operands::Two(first, second) => {
                self.push(second);
                self.push(first);
            }
        }
    }

    // The next place, which waits no longer.
    pub fn pop(&mut self) -> usize
        requires { self.old.from < waiting_room }
        ensures next { result ≡ get_or self.old.places self.old.from 0 }
        ensures others { self.new ≡ record { places = self.old.places; from = self.old.from + 1 } }
    {
        let place = self.places[self.from];
        self.from += 1;
        place
    }
}
