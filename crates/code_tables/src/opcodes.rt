// Look-ups in the table of opcodes.

ghost use Rattle.std.specs.Prelude.{◌≡◌};
ghost use Rattle.code_tables.specs.Opcodes.{class_of, operands_of};

use crate::class::{OpClass, Operands};

/// What is said of an opcode: an arm for each row, and what stands for all others.
macro_rules! by_opcode {
    ($opcode:expr; $($row:literal => $answer:expr,)+ else $other:expr) => {
        match $opcode {
            $($row => $answer,)+
            _ => $other,
        }
    };
}

/// The class of an opcode, `Refused` where the table has no row of it.
#[tactic(auto, unfolding(crate::specs::Opcodes::class_of))]
pub fn class_of(opcode: u32) -> OpClass
    ensures { result ≡ class_of opcode }
{
    by_opcode!(opcode;
        0 => OpClass::Sum,
        1 => OpClass::Difference,
        2 => OpClass::Product,
        3 => OpClass::Quotient,
        5 => OpClass::Power,
        11 => OpClass::Least,
        12 => OpClass::Greatest,
        13 => OpClass::Floor,
        14 => OpClass::Ceiling,
        15 => OpClass::Absolute,
        16 => OpClass::Negation,
        54 => OpClass::List,
        else OpClass::Refused
    )
}

/// How many operands follow an opcode, none where the table has no row of it.
#[tactic(auto, unfolding(crate::specs::Opcodes::operands_of))]
pub fn operands_of(opcode: u32) -> Option<Operands>
    ensures { result ≡ operands_of opcode }
{
    by_opcode!(opcode;
        0 => Some(Operands::Two),
        1 => Some(Operands::Two),
        2 => Some(Operands::Two),
        3 => Some(Operands::Two),
        5 => Some(Operands::Two),
        11 => Some(Operands::Counted),
        12 => Some(Operands::Counted),
        13 => Some(Operands::One),
        14 => Some(Operands::One),
        15 => Some(Operands::One),
        16 => Some(Operands::One),
        54 => Some(Operands::Counted),
        else None
    )
}
