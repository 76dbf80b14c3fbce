ghost use Rattle.std.specs.Prelude.{◌≡◌, ◌+◌, ◌<◌, MatchResult, OnOk, ◌&&◌, nat_lt};
ghost use Rattle.fault.specs.declared.kinds.BoxFault.TheVariants.{NoSuchSection};
ghost use Rattle.plan.specs.Layout.{told, is_switch};
ghost use Rattle.route.specs.Tells.{Tells};
ghost use Rattle.frame.specs.Sections.{Watches, IsSection, WatchedBy};

use crate::sections::FIRST_POINT;
use fault::kinds::{BoxFault, PlanFault};
use plan::interface::Plan;
use plan::parts::Kind;

// The number of a switch's point section among all sections.
pub(crate) fn point_section<P: Plan>(plan: &P, switch: u16) -> Result<u16, PlanFault>
    ensures { result ≡ told (nat_lt switch (P.layout plan.now).count && is_switch ((P.layout plan.now).kind switch)) (512 + (P.layout plan.now).section switch) }
{
    Ok(FIRST_POINT + plan.section(switch)?)
}

// The section that watches the component; none watches a signal.
pub(crate) fn section_of<P: Plan>(plan: &P, component: u16) -> Option<u16>
    ensures { WatchedBy (P.layout plan.now) component result }
{
    match plan.kind(component).ok()? {
        Kind::Signal(_) => None,
        Kind::Straight => Some(component),
        Kind::Switch(_) => point_section(plan, component).ok(),
    }
}

fn watches<P: Plan>(plan: &P, section: u16, component: u16) -> bool
    ensures { Tells result (Watches (P.layout plan.now) section component) }
{
    section_of(plan, component) == Some(section)
}

// Whether the number is that of a section of the plan.
fn is_section<P: Plan>(plan: &P, section: u16) -> bool
    ensures { Tells result (IsSection (P.layout plan.now) section) }
{
    (0..plan.count()).any(|component| watches(plan, section, component))
}

// Refuses a number that is that of no section of the plan.
pub(crate) fn known<P: Plan>(plan: &P, section: u16) -> Result<(), BoxFault>
    ensures told { MatchResult result (λ _. IsSection (P.layout plan.now) section) (λ f. (IsSection (P.layout plan.now) section → ⊥) × (f ≡ NoSuchSection)) }
    ensures small { OnOk result (section < 1024) }
{
    if !is_section(plan, section) {
        return Err(BoxFault::NoSuchSection);
    }
    Ok(())
}
