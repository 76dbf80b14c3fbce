ghost use Rattle.std.specs.Prelude.{◌≡◌, OnErr};
ghost use Rattle.signal_box.specs.Journal.{unwritten};
ghost use Rattle.signal_box.specs.Journal.Event.{Turned, Restarted};
ghost use Rattle.signal_box.specs.Kept.{Kept, Notes};
ghost use Rattle.signal_box.specs.OneAnswer.{OneAnswer};

use super::SignalBox;
use fault::kinds::BoxFault;
use frame::frame::Frame;
use plan::interface::Plan;
use register::registers::Register;

impl<P: Plan> SignalBox<P> {
    // All switches normal, all sections clear, no route open, and the register before the first route. What a box's
    // journal demands of a call is one answer.
    pub fn new(plan: P) -> SignalBox<P>
        ensures plan { result.register.plan ≡ plan }
        ensures journal { Kept (P.layout plan) unwritten result }
        ensures one { OneAnswer }
    {
        SignalBox {
            register: Register::new(plan),
            frame: Frame::new(),
        }
    }

    pub fn plan(&self) -> &P
        ensures { result.now ≡ self.now.register.plan }
    {
        self.register.plan()
    }

    // Writes the next route's row at the front of the space and answers its length in bytes.
    pub fn turn(&mut self, space: &mut [u8]) -> Result<usize, BoxFault>
        ensures refused { OnErr result ((self.new ≡ self.old) × (space.new ≡ space.old)) }
        ensures journal { Notes P.layout self.old (Turned space.old space.new result) self.new }
    {
        self.register.turn(space)
    }

    // The register stands before the first route again.
    pub fn restart(&mut self)
        ensures journal { Notes P.layout self.old Restarted self.new }
    {
        self.register.restart();
    }
}
