// A sheet as it stands in lent memory while a formula is decided over it.

// Its move words and the index of its moves, the number of its states, and its q.
#[derive(Clone, Copy)]
pub struct LaidSheet<'a> {
    pub moves: &'a [u64],
    pub index: &'a [u64],
    pub n: usize,
    pub q: u64,
}
