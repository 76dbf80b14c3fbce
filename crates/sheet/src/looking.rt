ghost use Rattle.std.specs.Prelude.{◌≡◌, true, false};
ghost use Rattle.sheet.specs.Look.{is_whole, HasSwitch, NoSwitch, FirstBad, Looked, OneLook};
ghost use Rattle.sheet.specs.Sheets.{plan_of};

use crate::sheet::Sheet;
use fault::kinds::PlanFault;

impl Sheet<'_> {
    // The first switch with a blank port.
    fn first_blank(&self) -> Option<u16>
        ensures { FirstBad self.now.count
            (λ c. is_whole (plan_of self.now) c ≡ true)
            (λ c. is_whole (plan_of self.now) c ≡ false)
            result }
    {
        let drawn = self.drawn();
        (0..self.count).find(|component| !drawn.is_whole(*component))
    }

    // The first point section without a switch.
    fn first_empty(&self) -> Option<u16>
        ensures { FirstBad self.now.sections
            (HasSwitch (plan_of self.now))
            (NoSwitch (plan_of self.now))
            result }
    {
        let drawn = self.drawn();
        (0..self.sections).find(|section| !drawn.has_switch(*section))
    }

    // Refuses the first switch with a blank port, then the first point section without a switch.
    #[tactic(auto, using(crate::proofs::Looks::one_look))]
    pub fn look_over(&self) -> Result<(), PlanFault>
        ensures looked { Looked (plan_of self.now) self.now.sections result }
        ensures one { OneLook }
    {
        if let Some(component) = self.first_blank() {
            return Err(PlanFault::BlankPort(usize::from(component)));
        }
        if let Some(section) = self.first_empty() {
            return Err(PlanFault::WrongSwitchCount(usize::from(section)));
        }
        Ok(())
    }
}
