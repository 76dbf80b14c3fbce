ghost use Rattle.std.specs.Prelude.{◌≡◌};
ghost use Rattle.frame.specs.Asking.{told_position, ToldOccupied};
ghost use Rattle.frame.specs.View.{view, open_rows};

use super::Frame;
use crate::open_route::OpenRoute;
use crate::watching::known;
use fault::kinds::BoxFault;
use plan::interface::Plan;
use plan::parts::Position;

impl Frame {
    // How a switch of the plan lies.
    pub fn position<P: Plan>(&self, plan: &P, switch: u16) -> Result<Position, BoxFault>
        ensures { result ≡ told_position (P.layout plan.now) (view self.now) switch }
    {
        plan.section(switch)?;
        Ok(self.lie(switch))
    }

    // Whether a section of the plan is occupied.
    pub fn is_occupied<P: Plan>(&self, plan: &P, section: u16) -> Result<bool, BoxFault>
        ensures { ToldOccupied (P.layout plan.now) (view self.now) section result }
    {
        known(plan, section)?;
        Ok(self.occupied.contains(section))
    }

    // The open routes, in the order of their opening.
    pub fn open_routes(&self) -> &[OpenRoute]
        ensures { open_rows result.now ≡ (view self.now).opened }
    {
        self.routes.as_slice()
    }

    // How a switch lies, also one of no plan.
    pub(crate) fn lie(&self, switch: u16) -> Position
        ensures { result ≡ (view self.now).position switch }
    {
        if self.reversed.contains(switch) {
            Position::Reverse
        } else {
            Position::Normal
        }
    }
}
