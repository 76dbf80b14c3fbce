ghost use Rattle.std.specs.Prelude.{◌≡◌};
ghost use Rattle.sheet.specs.Adding.{empty_layout};
ghost use Rattle.sheet.specs.Closing.{closed_layout};
ghost use Rattle.sheet.specs.Look.{Whole};
ghost use Rattle.sheet.specs.Sheets.{plan_of};

use crate::closed::ClosedSheet;
use crate::sheet::Sheet;

impl<'a> Sheet<'a> {
    // Takes the sheet away. What is left is the plan as it stands, without components where the look refuses.
    pub fn close(self) -> ClosedSheet<'a>
        ensures whole { Whole (plan_of self.entry) self.entry.sections → closed_layout result ≡ plan_of self.entry }
        ensures refused { (Whole (plan_of self.entry) self.entry.sections → ⊥) → closed_layout result ≡ empty_layout }
        ensures sheet { result.sheet ≡ self.entry }
    {
        let shown = match self.look_over() {
            Ok(()) => self.count,
            Err(_) => 0,
        };
        ClosedSheet { sheet: self, shown }
    }
}

impl<'a> ClosedSheet<'a> {
    // Gives the sheet back as it was closed.
    pub fn reopen(self) -> Sheet<'a>
        ensures { result ≡ self.entry.sheet }
    {
        let ClosedSheet { sheet, shown: _ } = self;
        sheet
    }
}
