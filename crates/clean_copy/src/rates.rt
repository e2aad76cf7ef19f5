// The rates of a sheet, as they are laid in words.
ghost use Rattle.std.specs.Prelude.{◌≡◌, ◌<◌, length, replicate};
ghost use Rattle.rate_matrix.specs.Words.{rate_between, row_of};
ghost use Rattle.clean_copy.specs.Laid.{Laid, Gathered};

// The moves to other states in rows by the state that they leave, and columns that say where each row ends and which rates go to the own state.
#[derive(Clone, Copy)]
pub struct Rates<'a> {
    pub rows: &'a [u64],
    pub columns: &'a [u64],
    pub states: usize,
    ghost laid: { Laid rows.now columns.now states },
}

// Each asks that a state is below their number, as one asks it of an index.
impl Rates<'_> {
    ghost use Rattle.clean_copy.specs.Rates.{rate_from};

    // Where the row of a state begins: where that of the state before it ends.
    fn row_begin(&self, s: usize) -> usize
        requires { s < self.now.states }
        ensures { result ≡ row_of self.now.rows.now (length self.now.rows.now) s }
    {
        if s == 0 {
            return 0;
        }
        self.columns[self.states + (s - 1)] as usize
    }

    // The rates of a state's row, each onto the total of the state that it goes to.
    fn add_row(&self, s: usize, totals: &mut [u64])
        requires here { s < self.now.states }
        requires clear { totals.old ≡ replicate self.now.states 0 }
        ensures { Gathered
            (rate_between self.now.rows.now (length self.now.rows.now) s)
            self.now.states totals.new }
    {
        let begin = self.row_begin(s);
        let end = self.columns[self.states + s] as usize;
        for &word in &self.rows[begin..end] {
            totals[rate_matrix::to_of(word)] += rate_matrix::rate_of(word);
        }
    }

    // The rates of a state to each state: repeated pairs are added together, and the rate to the own state counts.
    pub fn gather(&self, s: usize, totals: &mut [u64])
        requires here { s < self.now.states }
        requires room { length totals.old ≡ self.now.states }
        ensures { Gathered (rate_from self.now s) self.now.states totals.new }
    {
        totals.fill(0);
        self.add_row(s, totals);
        let own = self.columns[self.states + self.states + s];
        totals[s] += own;
    }
}
