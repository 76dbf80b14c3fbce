// The one-switch file, field by field, as docs/FORMAT.md reads it.

use crate::tally::Tally;
use filed::filed::FiledPlan;
use plan::interface::Plan;
use plan::parts::{Direction, Kind, Port, Side};
use stations::ONE_SWITCH;

// Whether each of the two ports is the other's far port.
fn are_connected<P: Plan>(plan: &P, a: Port, b: Port) -> bool {
    leads_to(plan, a, b) && leads_to(plan, b, a)
}

fn leads_to<P: Plan>(plan: &P, port: Port, far: Port) -> bool {
    plan.far(port) == Ok(Some(far))
}

fn hold_components<P: Plan>(tally: &mut Tally<'_>, plan: &P) -> anyhow::Result<()> {
    let signal = Kind::Signal(Direction::East);
    tally.hold("four components", plan.count() == 4)?;
    tally.hold("component 0, letter E", plan.kind(0) == Ok(signal))?;
    tally.hold("component 1, letter E", plan.kind(1) == Ok(signal))?;
    tally.hold("component 2, letter E", plan.kind(2) == Ok(signal))?;
    let switch = Kind::Switch(Direction::East);
    tally.hold("component 3, letter E", plan.kind(3) == Ok(switch))?;
    tally.hold("component 3, point section 0", plan.section(3) == Ok(0))
}

fn hold_ports<P: Plan>(tally: &mut Tally<'_>, plan: &P) -> anyhow::Result<()> {
    let root = Side::West.of(3);
    let straight = Side::East.of(3);
    let branch = Side::Branch.of(3);
    tally.hold(
        "component 0, west: blank",
        plan.far(Side::West.of(0)) == Ok(None),
    )?;
    tally.hold(
        "component 0, east: west port of the switch",
        are_connected(plan, Side::East.of(0), root),
    )?;
    tally.hold(
        "component 1, west: east port of the switch",
        are_connected(plan, Side::West.of(1), straight),
    )?;
    tally.hold(
        "component 1, east: blank",
        plan.far(Side::East.of(1)) == Ok(None),
    )?;
    tally.hold(
        "component 2, west: branch of the switch",
        are_connected(plan, Side::West.of(2), branch),
    )?;
    tally.hold(
        "component 2, east: blank",
        plan.far(Side::East.of(2)) == Ok(None),
    )
}

pub fn hold_fields(tally: &mut Tally<'_>) -> anyhow::Result<()> {
    let plan = FiledPlan::take(&ONE_SWITCH);
    hold_components(tally, &plan)?;
    hold_ports(tally, &plan)
}
