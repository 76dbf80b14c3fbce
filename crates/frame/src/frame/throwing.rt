ghost use Rattle.std.specs.Prelude.{◌≡◌, ◌<◌, OnOk, OnErr};
ghost use Rattle.frame.specs.Book.{laid};
ghost use Rattle.frame.specs.Calls.{Throwing};
ghost use Rattle.frame.specs.Tests.{refusal};
ghost use Rattle.frame.specs.View.{view};

use super::Frame;
use crate::held::is_held;
use crate::watching::point_section;
use fault::kinds::BoxFault;
use plan::interface::Plan;
use plan::parts::Position;

impl Frame {
    // Lays a switch, unless it is on an open route or its point section is occupied.
    pub fn throw<P: Plan>(&mut self, plan: &P, switch: u16, to: Position) -> Result<(), BoxFault>
        ensures told { Throwing (P.layout plan.now) (view self.old) switch (refusal result) }
        ensures refused { OnErr result (self.new ≡ self.old) }
        ensures after { OnOk result (view self.new ≡ laid (view self.old) switch to) }
    {
        let section = point_section(plan, switch)?;
        if is_held(self.open_routes(), switch) {
            return Err(BoxFault::Conflict);
        }
        if self.occupied.contains(section) {
            return Err(BoxFault::Occupied);
        }
        self.lay(switch, to);
        Ok(())
    }

    fn lay(&mut self, switch: u16, to: Position)
        requires { switch < 512 }
        ensures { view self.new ≡ laid (view self.old) switch to }
    {
        match to {
            Position::Normal => self.reversed.remove(switch),
            Position::Reverse => self.reversed.insert(switch),
        }
    }
}
