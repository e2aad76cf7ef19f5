// A sheet: its two texts, and how much they have.
ghost use Rattle.std.specs.Prelude.{◌≡◌};
ghost use Rattle.refusals.specs.Sheet.{dimensions_of};

use refusals::Dimensions;

// The two texts of a sheet, and what they have.
#[derive(Clone, Copy)]
pub struct Sheet<'a> {
    pub moves: &'a [u8],
    pub labels: &'a [u8],
    pub has: Dimensions,
    pub ghost measured: { has ≡ dimensions_of moves.now labels.now },
}
