ghost use Rattle.std.specs.Prelude.{Some};
ghost use Rattle.plan.specs.Names.{side_name};

use crate::parts::Side;
use std::fmt;

impl fmt::Display for Side {
    ghost output = { λ side. Some (side_name side) };

    fn fmt<W: fmt::Write>(&self, f: &mut fmt::Formatter<W>) -> fmt::Result {
        f.write_str(match self {
            Side::West => "west",
            Side::East => "east",
            Side::Branch => "branch",
        })
    }
}
