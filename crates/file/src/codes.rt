// Letters and port codes as a file stores them.

ghost use Rattle.std.specs.Prelude.{◌≡◌};
ghost use Rattle.plan.specs.Letters.{direction_at};
ghost use Rattle.file.specs.Contents.{side_number, port_of};

use plan::parts::{Direction, Port, Side};

// What is stored for a blank: the format's number, which leaves this crate as a None.
pub(crate) const BLANK: u16 = 65535;

// The direction that a letter stands for; whatever is not that of east counts as west.
pub(crate) fn direction_at(letter: u8) -> Direction
    ensures { result ≡ direction_at letter }
{
    Direction::try_from(letter).unwrap_or(Direction::West)
}

// The number of a side, by which fields and codes are ordered. A file has it, and a plan has none.
pub(crate) fn side_number(side: Side) -> usize
    ensures { result ≡ side_number side }
{
    match side {
        Side::West => 0,
        Side::East => 1,
        Side::Branch => 2,
    }
}

// The port that has the code, if any can: the code of a blank, 65535, is no port's. No TryFrom, since a code is a u16 as
// counts and sections are.
pub(crate) fn port_of(code: u16) -> Option<Port>
    ensures { result ≡ port_of code }
{
    let side = match code % 4 {
        0 => Side::West,
        1 => Side::East,
        2 => Side::Branch,
        _ => return None,
    };
    Some(side.of(code / 4))
}
