use crate::answers::{prepared, print_accepted, print_number};
use crate::trial::{add_parts, connect_parts, unused};
use fault::kinds::PlanFault;
use plan::parts::Side;
use sheet::sheet::Sheet;

fn print_without_switches(rt: &HostRuntime) -> anyhow::Result<()> {
    let mut space = [unused(); 1];
    let mut sheet = Sheet::new(&mut space);
    print_accepted(rt, "looking over an empty sheet", sheet.look_over())?;
    print_number(rt, "a signal", sheet.add_signal(b'E'))?;
    print_accepted(rt, "looking over its blank ports", sheet.look_over())?;
    print_number(rt, "a point section", sheet.add_section())?;
    print_number(rt, "another", sheet.add_section())?;
    print_accepted(
        rt,
        "looking over two point sections without a switch",
        sheet.look_over(),
    )
}

// Connects switch 2 at every port, and one of 3 stays blank.
fn connect_first(sheet: &mut Sheet<'_>) -> Result<(), PlanFault> {
    sheet.connect(Side::East.of(0), Side::West.of(2))?;
    sheet.connect(Side::East.of(2), Side::West.of(3))?;
    sheet.connect(Side::Branch.of(2), Side::Branch.of(3))
}

// Connects switch 4 with signal 0 and two more.
fn connect_fourth(sheet: &mut Sheet<'_>) -> Result<(), PlanFault> {
    let upper = sheet.add_signal(b'E')?;
    let lower = sheet.add_signal(b'E')?;
    sheet.connect(Side::East.of(4), Side::West.of(0))?;
    sheet.connect(Side::East.of(upper), Side::West.of(4))?;
    sheet.connect(Side::East.of(lower), Side::Branch.of(4))
}

fn print_switches(rt: &HostRuntime, sheet: &mut Sheet<'_>) -> anyhow::Result<()> {
    print_number(
        rt,
        "a point section beside that of switches 2 and 3",
        sheet.add_section(),
    )?;
    print_accepted(
        rt,
        "looking over switches 2 and 3 with blank ports",
        sheet.look_over(),
    )?;
    prepared(connect_first(sheet))?;
    print_accepted(rt, "looking over switch 2 connected", sheet.look_over())?;
    print_accepted(
        rt,
        "connecting the root of 3",
        sheet.connect(Side::East.of(3), Side::West.of(1)),
    )?;
    print_accepted(rt, "looking over both connected", sheet.look_over())?;
    print_number(
        rt,
        "a switch of the other point section",
        sheet.add_switch(b'W', 1),
    )?;
    print_accepted(rt, "looking over its blank ports", sheet.look_over())?;
    prepared(connect_fourth(sheet))?;
    print_accepted(rt, "looking over everything connected", sheet.look_over())?;
    print_accepted(
        rt,
        "disconnecting the branch of 3",
        sheet.disconnect(Side::Branch.of(3)),
    )?;
    print_accepted(rt, "looking over two blank branches", sheet.look_over())
}

pub fn print_looking(rt: &HostRuntime) -> anyhow::Result<()> {
    print_without_switches(rt)?;
    let mut space = [unused(); 7];
    let mut sheet = Sheet::new(&mut space);
    prepared(add_parts(&mut sheet))?;
    print_switches(rt, &mut sheet)
}
