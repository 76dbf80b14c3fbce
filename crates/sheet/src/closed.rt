ghost use Rattle.std.specs.Prelude.{◌≤◌};

use crate::sheet::Sheet;

// A sheet that was taken away. It shows all its components, or none where the look refuses the sheet.
#[derive(Drop)]
pub struct ClosedSheet<'a> {
    pub(crate) sheet: Sheet<'a>,
    pub(crate) shown: u16,
    ghost part: { shown ≤ sheet.count },
}
