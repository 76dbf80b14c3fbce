ghost use Rattle.std.specs.Prelude.{◌≡◌, IfErr, OnErr};
ghost use Rattle.signal_box.specs.Journal.Event.{Thrown, Occupied, Cleared, Opened, Released};
ghost use Rattle.signal_box.specs.Kept.{Notes};
ghost use Rattle.signal_box.specs.Slips.{serial_given, unkept};

use super::SignalBox;
use fault::kinds::BoxFault;
use frame::slip::Slip;
use plan::interface::Plan;
use plan::parts::Position;

impl<P: Plan> SignalBox<P> {
    // Lays a switch.
    pub fn throw(&mut self, switch: u16, to: Position) -> Result<(), BoxFault>
        ensures refused { OnErr result (self.new ≡ self.old) }
        ensures journal { Notes P.layout self.old (Thrown switch to result) self.new }
    {
        self.frame.throw(self.register.plan(), switch, to)
    }

    // A train is in the section.
    pub fn occupy(&mut self, section: u16) -> Result<(), BoxFault>
        ensures refused { OnErr result (self.new ≡ self.old) }
        ensures journal { Notes P.layout self.old (Occupied section result) self.new }
    {
        self.frame.occupy(self.register.plan(), section)
    }

    // No train is in the section.
    pub fn clear(&mut self, section: u16) -> Result<(), BoxFault>
        ensures refused { OnErr result (self.new ≡ self.old) }
        ensures journal { Notes P.layout self.old (Cleared section result) self.new }
    {
        self.frame.clear(self.register.plan(), section)
    }

    // Opens a row and gives the slip that closes it.
    pub fn open(&mut self, row: &[u8]) -> Result<Slip, BoxFault>
        ensures refused { OnErr result (self.new ≡ self.old) }
        ensures journal { Notes P.layout self.old (Opened row.now (serial_given result)) self.new }
    {
        self.frame.open(self.register.plan(), row)
    }

    // Closes the route of the slip, or hands the slip back where no open route has its serial.
    pub fn release(&mut self, slip: Slip) -> Result<(), (BoxFault, Slip)>
        ensures kept { IfErr result (λ y. (y.1 ≡ slip) × (self.new ≡ self.old)) }
        ensures journal { Notes P.layout self.old (Released slip.serial (unkept result)) self.new }
    {
        self.frame.release(slip)
    }
}
