// What a phase is worked out from and leaves as it is.

// A chain as its packed moves show it: those of n states, whose greatest exit rate is q. `until` and `earlier` take its parts: their clauses are read
// by others, and of a struct of references an `ensures` says `chain.entry.moves.now`.
#[derive(Clone, Copy)]
pub struct Chain<'a> {
    pub moves: &'a [u64],
    pub n: usize,
    pub q: u64,
}

// The verdict bytes of the two operands, a row each.
#[derive(Clone, Copy)]
pub struct Operands<'a> {
    pub first: &'a [u8],
    pub second: &'a [u8],
}
