ghost use Rattle.std.specs.Prelude.{◌≡◌, IfErr, OnOk};
ghost use Rattle.frame.specs.Book.{closed_at};
ghost use Rattle.frame.specs.Calls.{Releasing};
ghost use Rattle.frame.specs.Placed.{Placed};
ghost use Rattle.frame.specs.Tests.{kept_refusal};
ghost use Rattle.frame.specs.View.{view, open_rows};

use super::Frame;
use crate::open_route::OpenRoute;
use crate::slip::Slip;
use fault::kinds::BoxFault;

// Where the route of the serial stands.
fn place(routes: &[OpenRoute], serial: u16) -> Option<usize>
    ensures { Placed (open_rows routes.now) serial result }
{
    routes.iter().position(|route| route.serial == serial)
}

impl Frame {
    // Closes the route of the slip, or hands the slip back where no open route has its serial.
    pub fn release(&mut self, slip: Slip) -> Result<(), (BoxFault, Slip)>
        ensures told { Releasing (view self.old) slip.serial (kept_refusal result) }
        ensures kept { IfErr result (λ y. (y.1 ≡ slip) × (self.new ≡ self.old)) }
        ensures after { OnOk result (view self.new ≡ closed_at (view self.old) slip.serial) }
    {
        let Some(i) = place(self.open_routes(), slip.serial) else {
            return Err((BoxFault::UnknownSlip, slip));
        };
        let Slip { serial: _ } = slip;
        self.routes.remove(i);
        Ok(())
    }
}
