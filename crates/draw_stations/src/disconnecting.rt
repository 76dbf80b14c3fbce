use crate::answers::{prepared, print_accepted, print_far};
use crate::trial::{add_parts, connect_parts, unused};
use plan::parts::Side;
use sheet::sheet::Sheet;

fn print_refusals(rt: &HostRuntime, sheet: &mut Sheet<'_>) -> anyhow::Result<()> {
    print_accepted(
        rt,
        "disconnecting a blank port",
        sheet.disconnect(Side::West.of(0)),
    )?;
    print_accepted(
        rt,
        "disconnecting the branch of a signal",
        sheet.disconnect(Side::Branch.of(0)),
    )?;
    print_accepted(
        rt,
        "disconnecting an unknown component",
        sheet.disconnect(Side::East.of(4)),
    )
}

fn print_once(rt: &HostRuntime, sheet: &mut Sheet<'_>) -> anyhow::Result<()> {
    print_accepted(
        rt,
        "disconnecting the branch of 2",
        sheet.disconnect(Side::Branch.of(2)),
    )?;
    print_far(rt, "from the branch of 2", sheet.far(Side::Branch.of(2)))?;
    print_far(rt, "from the branch of 3", sheet.far(Side::Branch.of(3)))?;
    print_far(rt, "from the east of 2", sheet.far(Side::East.of(2)))?;
    print_accepted(
        rt,
        "disconnecting it again",
        sheet.disconnect(Side::Branch.of(2)),
    )?;
    print_accepted(
        rt,
        "disconnecting the branch of 3",
        sheet.disconnect(Side::Branch.of(3)),
    )
}

// Connects what was disconnected, and then each straight leg with the other branch.
fn print_again(rt: &HostRuntime, sheet: &mut Sheet<'_>) -> anyhow::Result<()> {
    print_accepted(
        rt,
        "connecting the branches again",
        sheet.connect(Side::Branch.of(3), Side::Branch.of(2)),
    )?;
    print_accepted(
        rt,
        "disconnecting by the other port",
        sheet.disconnect(Side::Branch.of(3)),
    )?;
    print_accepted(
        rt,
        "disconnecting the straight legs",
        sheet.disconnect(Side::West.of(3)),
    )?;
    print_accepted(
        rt,
        "connecting a leg with the other branch",
        sheet.connect(Side::East.of(2), Side::Branch.of(3)),
    )?;
    print_accepted(
        rt,
        "and the other leg",
        sheet.connect(Side::Branch.of(2), Side::West.of(3)),
    )?;
    print_far(rt, "from the east of 2", sheet.far(Side::East.of(2)))?;
    print_far(rt, "from the west of 3", sheet.far(Side::West.of(3)))
}

pub fn print_disconnecting(rt: &HostRuntime) -> anyhow::Result<()> {
    let mut space = [unused(); 4];
    let mut sheet = Sheet::new(&mut space);
    prepared(add_parts(&mut sheet))?;
    prepared(connect_parts(&mut sheet))?;
    print_refusals(rt, &mut sheet)?;
    print_once(rt, &mut sheet)?;
    print_again(rt, &mut sheet)
}
