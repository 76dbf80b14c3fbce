use crate::answers::{prepared, print_accepted, print_far};
use crate::trial::{add_parts, unused};
use plan::parts::{Port, Side};
use sheet::sheet::Sheet;

// Prints what connecting each two ports answers.
fn print_connects(
    rt: &HostRuntime,
    sheet: &mut Sheet<'_>,
    trials: &[(&str, Port, Port)],
) -> anyhow::Result<()> {
    for (name, a, b) in trials {
        print_accepted(rt, name, sheet.connect(*a, *b))?;
    }
    Ok(())
}

fn print_not_opposed(rt: &HostRuntime, sheet: &mut Sheet<'_>) -> anyhow::Result<()> {
    let trials = [
        ("a port to itself", Side::East.of(0), Side::East.of(0)),
        ("a branch to itself", Side::Branch.of(2), Side::Branch.of(2)),
        (
            "two ports of one component",
            Side::East.of(0),
            Side::West.of(0),
        ),
        (
            "root and leg of one switch",
            Side::Branch.of(3),
            Side::East.of(3),
        ),
        (
            "two ports that face east",
            Side::East.of(0),
            Side::East.of(1),
        ),
        (
            "two ports that face west",
            Side::West.of(2),
            Side::West.of(1),
        ),
        (
            "a branch that faces east to such a port",
            Side::Branch.of(2),
            Side::East.of(3),
        ),
        (
            "a branch that faces west to such a port",
            Side::West.of(0),
            Side::Branch.of(3),
        ),
    ];
    print_connects(rt, sheet, &trials)
}

fn print_no_port(rt: &HostRuntime, sheet: &mut Sheet<'_>) -> anyhow::Result<()> {
    let trials = [
        (
            "from the branch of a signal",
            Side::Branch.of(0),
            Side::West.of(1),
        ),
        (
            "to the branch of a signal",
            Side::East.of(1),
            Side::Branch.of(0),
        ),
        (
            "from an unknown component",
            Side::East.of(4),
            Side::West.of(0),
        ),
        (
            "to an unknown component",
            Side::East.of(0),
            Side::West.of(65_535),
        ),
        (
            "no such port before not opposed",
            Side::Branch.of(1),
            Side::Branch.of(1),
        ),
    ];
    print_connects(rt, sheet, &trials)
}

fn print_already(rt: &HostRuntime, sheet: &mut Sheet<'_>) -> anyhow::Result<()> {
    let trials = [
        (
            "signal 0 to the root of switch 2",
            Side::East.of(0),
            Side::West.of(2),
        ),
        (
            "the first port connected already",
            Side::East.of(0),
            Side::West.of(1),
        ),
        (
            "the second port connected already",
            Side::East.of(1),
            Side::West.of(2),
        ),
        (
            "both ports connected already",
            Side::East.of(0),
            Side::West.of(2),
        ),
        (
            "both, the other way round",
            Side::West.of(2),
            Side::East.of(0),
        ),
        (
            "not opposed before connected already",
            Side::East.of(0),
            Side::East.of(1),
        ),
        (
            "no such port before connected already",
            Side::East.of(0),
            Side::Branch.of(1),
        ),
    ];
    print_connects(rt, sheet, &trials)
}

fn print_both_legs(rt: &HostRuntime, sheet: &mut Sheet<'_>) -> anyhow::Result<()> {
    let trials = [
        (
            "the straight legs of both switches",
            Side::East.of(2),
            Side::West.of(3),
        ),
        ("their branches", Side::Branch.of(2), Side::Branch.of(3)),
    ];
    print_connects(rt, sheet, &trials)?;
    print_far(rt, "from the branch of 2", sheet.far(Side::Branch.of(2)))?;
    print_far(rt, "from the branch of 3", sheet.far(Side::Branch.of(3)))?;
    print_far(rt, "from the west of 3", sheet.far(Side::West.of(3)))?;
    print_far(rt, "from the west of 2", sheet.far(Side::West.of(2)))?;
    print_far(rt, "from the east of 3", sheet.far(Side::East.of(3)))?;
    print_far(rt, "from the branch of 1", sheet.far(Side::Branch.of(1)))?;
    print_far(rt, "from the west of 4", sheet.far(Side::West.of(4)))
}

pub fn print_connecting(rt: &HostRuntime) -> anyhow::Result<()> {
    let mut space = [unused(); 5];
    let mut sheet = Sheet::new(&mut space);
    prepared(add_parts(&mut sheet))?;
    print_not_opposed(rt, &mut sheet)?;
    print_no_port(rt, &mut sheet)?;
    print_already(rt, &mut sheet)?;
    print_both_legs(rt, &mut sheet)
}
