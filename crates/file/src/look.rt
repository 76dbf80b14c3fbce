ghost use Rattle.std.specs.Prelude.{◌≡◌};
ghost use Rattle.file.specs.FileOf.{AcceptedExactly, Means};
ghost use Rattle.file.specs.Readings.{look};

use crate::contents::FirstRead;
use crate::first::first_reading;
use crate::reading::contents;
use fault::kinds::PlanFault;

// The first fault of a file, if it has one.
pub fn look_over(bytes: &[u8]) -> Result<(), PlanFault>
    ensures first { result ≡ look bytes.now }
    ensures accepted { AcceptedExactly bytes.now result }
    ensures means { Means bytes.now result }
{
    let file = contents(bytes);
    first_reading(&file)?;
    FirstRead { file }.second_reading()
}
