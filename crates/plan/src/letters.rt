ghost use Rattle.std.specs.Prelude.{◌≡◌};
ghost use Rattle.fault.specs.declared.kinds.PlanFault.TheVariants.{WrongLetter as SheetLetter};
ghost use Rattle.plan.specs.Letters.{told_direction};

use crate::parts::{Direction, WrongLetter};
use fault::kinds::PlanFault;

impl TryFrom<u8> for Direction {
    type Error = WrongLetter;

    ghost try_from_gives = { λ letter r. r ≡ told_direction letter };

    fn try_from(letter: u8) -> Result<Direction, WrongLetter> {
        match letter {
            b'E' => Ok(Direction::East),
            b'W' => Ok(Direction::West),
            _ => Err(WrongLetter),
        }
    }
}

impl From<WrongLetter> for PlanFault {
    ghost from_gives = { λ _ r. r ≡ SheetLetter };

    fn from(_: WrongLetter) -> PlanFault {
        PlanFault::WrongLetter
    }
}
