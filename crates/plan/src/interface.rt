ghost use Rattle.std.specs.Prelude.{◌≡◌};
ghost use Rattle.plan.specs.Layout.{Layout, Lawful, told_kind, told_section, told_far};

use crate::parts::{Kind, Port};
use fault::kinds::PlanFault;

// A station plan, by four tellings. Telling alters nothing, and code above knows no more of a plan.
// An implementation shows its layout and that the layout is lawful.
pub trait Plan {
    ghost layout: { Self → Layout };

    ghost lawful: { (p : Self) → Lawful (layout p) };

    // How many components there are; they are numbered from 0.
    fn count(&self) -> u16
        ensures { result ≡ (layout self.now).count };

    // The kind and direction of a component.
    fn kind(&self, component: u16) -> Result<Kind, PlanFault>
        ensures { result ≡ told_kind (layout self.now) component };

    // The point section of a switch.
    fn section(&self, component: u16) -> Result<u16, PlanFault>
        ensures { result ≡ told_section (layout self.now) component };

    // The port that a port is connected to, or none where it is blank.
    fn far(&self, port: Port) -> Result<Option<Port>, PlanFault>
        ensures { result ≡ told_far (layout self.now) port };
}
