// The operands of a node.
ghost use Rattle.std.specs.Prelude.{◌≡◌};
ghost use Rattle.formula.specs.Nodes.{path_meant};
ghost use Rattle.formula.specs.Operands.{operands_in, operands_of};

use crate::nodes::{Kind, Path};

// No operand, one or two, by their places in the row.
#[derive(Clone, Copy)]
pub enum Operands {
    None,
    One(usize),
    Two(usize, usize),
}

impl Path {
    // The operands of a path formula.
    fn operands(self) -> Operands
        ensures { result ≡ operands_in (path_meant self) }
    {
        match self {
            Path::Next(operand) => Operands::One(operand),
            Path::Until { first, second, .. } | Path::Between { first, second, .. } => {
                Operands::Two(first, second)
            }
        }
    }
}

impl Kind {
    // The operands of a node.
    pub fn operands(self) -> Operands
        ensures { result ≡ operands_of self }
    {
        match self {
            Kind::Always | Kind::Label(_) => Operands::None,
            Kind::Negated(operand) => Operands::One(operand),
            Kind::Both(first, second) => Operands::Two(first, second),
            Kind::Chance { path, .. } => path.operands(),
        }
    }
}
