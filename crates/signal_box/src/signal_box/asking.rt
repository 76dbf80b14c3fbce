ghost use Rattle.std.specs.Prelude.{◌≡◌};
ghost use Rattle.frame.specs.Asking.{told_position, ToldOccupied};
ghost use Rattle.frame.specs.View.{view, open_rows};

use super::SignalBox;
use fault::kinds::BoxFault;
use frame::frame::Frame;
use frame::open_route::OpenRoute;
use plan::interface::Plan;
use plan::parts::Position;

impl<P: Plan> SignalBox<P> {
    // How a switch of the plan lies.
    pub fn position(&self, switch: u16) -> Result<Position, BoxFault>
        ensures { result ≡ told_position (P.layout self.now.register.plan) (view self.now.frame) switch }
    {
        self.frame.position(self.register.plan(), switch)
    }

    // Whether a section of the plan is occupied.
    pub fn is_occupied(&self, section: u16) -> Result<bool, BoxFault>
        ensures { ToldOccupied (P.layout self.now.register.plan) (view self.now.frame) section result }
    {
        self.frame.is_occupied(self.register.plan(), section)
    }

    // The open routes with their serials, in the order of their opening.
    pub fn open_routes(&self) -> &[OpenRoute]
        ensures { open_rows result.now ≡ (view self.now.frame).opened }
    {
        self.frame.open_routes()
    }
}

impl<P: Plan + Drop> SignalBox<P> {
    // Takes the box down and keeps its frame.
    pub fn into_frame(self) -> Frame
        ensures { result ≡ self.frame }
    {
        let SignalBox { register: _, frame } = self;
        frame
    }
}
