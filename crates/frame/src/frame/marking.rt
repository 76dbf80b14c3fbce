ghost use Rattle.std.specs.Prelude.{◌≡◌, true, false, OnOk, OnErr};
ghost use Rattle.frame.specs.Book.{marked};
ghost use Rattle.frame.specs.Calls.{Marking};
ghost use Rattle.frame.specs.Tests.{refusal};
ghost use Rattle.frame.specs.View.{view};

use super::Frame;
use crate::watching::known;
use fault::kinds::BoxFault;
use plan::interface::Plan;

// Two calls, as two things happen on the line; what they share is `known`, and what differs is one call each.
impl Frame {
    // A train is in the section.
    pub fn occupy<P: Plan>(&mut self, plan: &P, section: u16) -> Result<(), BoxFault>
        ensures told { Marking (P.layout plan.now) section (refusal result) }
        ensures refused { OnErr result (self.new ≡ self.old) }
        ensures after { OnOk result (view self.new ≡ marked (view self.old) section true) }
    {
        known(plan, section)?;
        self.occupied.insert(section);
        Ok(())
    }

    // No train is in the section.
    pub fn clear<P: Plan>(&mut self, plan: &P, section: u16) -> Result<(), BoxFault>
        ensures told { Marking (P.layout plan.now) section (refusal result) }
        ensures refused { OnErr result (self.new ≡ self.old) }
        ensures after { OnOk result (view self.new ≡ marked (view self.old) section false) }
    {
        known(plan, section)?;
        self.occupied.remove(section);
        Ok(())
    }
}
