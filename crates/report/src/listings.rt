// The two listings of a report.
ghost use Rattle.std.specs.Prelude.{◌≡◌, ◌<◌, length, leb};
ghost use Rattle.decimals.specs.Place.{Room, Wrote};
ghost use Rattle.report.specs.Line.{text_of};
ghost use Rattle.report.specs.Listing.{state_at, Leaves};
ghost use Rattle.report.specs.Shown.{line_at, rows_of, listing_of, listings_of, Shown};

use crate::row::Row;
use crate::rows::Rows;
use decimals::write_bytes;
use verdicts::Verdict;

// Which of the two: the states by their numbers, or as they stand in the order. `state_at` and `listing_of` of specs/ go by it.
#[derive(Clone, Copy)]
enum Listing {
    ByNumber,
    WorstFirst,
}

impl Rows<'_> {
    // The state whose line stands at a place of a listing.
    fn state_at(&self, which: Listing, place: usize) -> usize
        requires { place < self.now.states }
        ensures is { result ≡ state_at which place self.now.order.now }
        ensures within { result < self.now.states }
    {
        match which {
            Listing::ByNumber => place,
            Listing::WorstFirst => usize::from(self.order[place]),
        }
    }

    // That line.
    fn line_at(&self, which: Listing, place: usize) -> Row
        requires { place < self.now.states }
        ensures { text_of result ≡ line_at which place self.now }
    {
        let state = self.state_at(which, place);
        Row {
            state,
            lower: self.lower[state],
            upper: self.upper[state],
            depth: self.depth,
            verdict: Verdict::from(self.verdicts[state]),
        }
    }

    // What a listing leaves of a room; none where it is longer.
    fn measure(&self, which: Listing, room: usize) -> Option<usize>
        ensures { Leaves (listing_of which self.now) room result }
    {
        let mut left = room.checked_sub(32)?;
        for place in 0..self.states {
            left = left.checked_sub(self.line_at(which, place).length())?;
        }
        Some(left)
    }

    // Whether both listings, one behind the other, take at most `room` bytes.
    fn fit(&self, room: usize) -> bool
        ensures { result ≡ leb (length (listings_of self.now)) room }
    {
        let Some(left) = self.measure(Listing::ByNumber, room) else {
            return false;
        };
        self.measure(Listing::WorstFirst, left).is_some()
    }

    // Writes the lines of a listing's states.
    fn write_rows(&self, which: Listing, out: &mut [u8], at: usize) -> usize
        requires { Room at (rows_of which self.now) out.old }
        ensures { Wrote at (rows_of which self.now) out.old out.new result }
    {
        let mut next = at;
        for place in 0..self.states {
            next = self.line_at(which, place).write(out, next);
        }
        next
    }

    // Writes a listing: the line of names, and the lines of its states.
    fn write_listing(&self, which: Listing, out: &mut [u8], at: usize) -> usize
        requires { Room at (listing_of which self.now) out.old }
        ensures { Wrote at (listing_of which self.now) out.old out.new result }
    {
        let next = write_bytes(out, at, b"state,lower,upper,depth,verdict\n");
        self.write_rows(which, out, next)
    }

    // Writes both listings, one behind the other, to the front of a buffer, and answers how long they are; none where it is too short, and it is as it
    // was then.
    pub fn render(&self, out: &mut [u8]) -> Option<usize>
        ensures { Shown self.now out.old out.new result }
    {
        if self.fit(out.len()) {
            let at = self.write_listing(Listing::ByNumber, out, 0);
            Some(self.write_listing(Listing::WorstFirst, out, at))
        } else {
            None
        }
    }
}
