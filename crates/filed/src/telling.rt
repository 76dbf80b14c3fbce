ghost use Rattle.file.proofs.Accepted.{accepted_lawful};
ghost use Rattle.file.specs.Contents.{layout_of};

use crate::filed::FiledPlan;
use fault::kinds::PlanFault;
use plan::interface::Plan;
use plan::parts::{Kind, Port};

impl Plan for FiledPlan<'_> {
    ghost layout = { λ p. layout_of p.contents.bytes.now };

    ghost lawful = { λ p. accepted_lawful p.contents.bytes.now p.accepted };

    fn count(&self) -> u16 {
        self.contents.components() as u16
    }

    fn kind(&self, component: u16) -> Result<Kind, PlanFault> {
        if usize::from(component) < self.contents.components() {
            Ok(self.contents.kind(component))
        } else {
            Err(PlanFault::NoSuchPart(0))
        }
    }

    fn section(&self, component: u16) -> Result<u16, PlanFault> {
        let Kind::Switch(_) = self.kind(component)? else {
            return Err(PlanFault::NoSuchPart(0));
        };
        Ok(self.contents.section(component))
    }

    fn far(&self, port: Port) -> Result<Option<Port>, PlanFault> {
        if self.contents.is_port(port) {
            Ok(self.contents.named(port))
        } else {
            Err(PlanFault::NoSuchPart(0))
        }
    }
}
