ghost use Rattle.std.specs.Prelude.{Some};
ghost use Rattle.fault.specs.Shown.{told_text};

use crate::kinds::Told;
use std::fmt;

impl fmt::Display for Told {
    ghost output = { λ told. Some (told_text told) };

    fn fmt<W: fmt::Write>(&self, f: &mut fmt::Formatter<W>) -> fmt::Result {
        let (number, place) = (self.number, self.place);
        write!(f, "{number} at {place}")
    }
}
