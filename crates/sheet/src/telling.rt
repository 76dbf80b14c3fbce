ghost use Rattle.std.specs.Prelude.{◌≡◌};
ghost use Rattle.sheet.specs.Closing.{closed_layout, closed_lawful};
ghost use Rattle.sheet.specs.Connections.{drawn};

use crate::closed::ClosedSheet;
use crate::drawn::Drawn;
use fault::kinds::PlanFault;
use plan::interface::Plan;
use plan::parts::{Kind, Port};

impl ClosedSheet<'_> {
    fn drawn(&self) -> Drawn<'_>
        ensures { drawn result.records.now ≡ closed_layout self.now }
    {
        Drawn {
            records: &self.sheet.records[..usize::from(self.shown)],
        }
    }
}

impl Plan for ClosedSheet<'_> {
    ghost layout = { closed_layout };

    ghost lawful = { closed_lawful };

    fn count(&self) -> u16 {
        self.shown
    }

    fn kind(&self, component: u16) -> Result<Kind, PlanFault> {
        self.drawn().kind(component)
    }

    fn section(&self, component: u16) -> Result<u16, PlanFault> {
        self.drawn().section(component)
    }

    fn far(&self, port: Port) -> Result<Option<Port>, PlanFault> {
        self.drawn().far(port)
    }
}
