ghost use Rattle.std.specs.Prelude.{◌≡◌};
ghost use Rattle.plan.specs.Layout.{told_far};
ghost use Rattle.sheet.specs.Connections.{drawn};
ghost use Rattle.sheet.specs.Sheets.{plan_of};

use crate::drawn::Drawn;
use crate::sheet::Sheet;
use fault::kinds::PlanFault;
use plan::parts::Port;

impl Sheet<'_> {
    pub fn count(&self) -> u16
        ensures { result ≡ (plan_of self.now).count }
    {
        self.count
    }

    pub fn sections(&self) -> u16
        ensures { result ≡ self.now.sections }
    {
        self.sections
    }

    pub(crate) fn drawn(&self) -> Drawn<'_>
        ensures { drawn result.records.now ≡ plan_of self.now }
    {
        Drawn {
            records: &self.records[..usize::from(self.count)],
        }
    }

    // The port that a port is connected to, or none where it is blank.
    pub fn far(&self, port: Port) -> Result<Option<Port>, PlanFault>
        ensures { result ≡ told_far (plan_of self.now) port }
    {
        self.drawn().far(port)
    }
}
