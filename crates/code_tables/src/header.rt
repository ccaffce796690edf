// Look-ups in the table of the header.

ghost use Rattle.std.specs.Prelude.{◌≡◌};
ghost use Rattle.code_tables.specs.Header.{field_at};

use crate::field::Field;

/// The field at a line and a place: an arm for each row, which is line, place, row, required, must
/// be 0.
macro_rules! by_place {
    (
        $at_line:expr, $at_place:expr;
        $($line:literal $place:literal => $row:literal $required:literal $zero:literal,)+
    ) => {
        match ($at_line, $at_place) {
            $(($line, $place) => Some(Field { row: $row, required: $required, zero: $zero }),)+
            _ => None,
        }
    };
}

/// The row of the header's field at a line and a place in it, both from 1.
#[tactic(auto, unfolding(crate::specs::Header::field_at))]
pub fn field_at(line: u32, place: u32) -> Option<Field>
    ensures { result ≡ field_at line place }
{
    by_place!(line, place;
        1 1 => 1 true false,
        2 1 => 2 true false,
        2 2 => 3 true false,
        2 3 => 4 true false,
        2 4 => 5 true false,
        2 5 => 6 true false,
        2 6 => 7 false true,
        3 1 => 8 true false,
        3 2 => 9 true false,
        4 1 => 10 true true,
        4 2 => 11 true true,
        5 1 => 12 true false,
        5 2 => 13 true false,
        5 3 => 14 true false,
        6 1 => 15 true true,
        6 2 => 16 true true,
        6 3 => 17 false false,
        6 4 => 18 false false,
        7 1 => 19 true false,
        7 2 => 20 true false,
        7 3 => 21 false false,
        7 4 => 22 false false,
        7 5 => 23 false false,
        8 1 => 24 true false,
        8 2 => 25 true false,
        9 1 => 26 true false,
        9 2 => 27 true false,
        10 1 => 28 true false,
        10 2 => 29 true false,
        10 3 => 30 true false,
        10 4 => 31 true false,
        10 5 => 32 true false,
    )
}
