use crate::answers::{prepared, print_accepted, print_far, print_number};
use crate::registers::print_register;
use crate::trial::unused;
use fault::kinds::PlanFault;
use plan::interface::Plan;
use plan::parts::Side;
use sheet::sheet::Sheet;

// The one-switch station, but that the branch of the switch stays blank.
fn draw_without_leg(sheet: &mut Sheet<'_>) -> Result<(), PlanFault> {
    let section = sheet.add_section()?;
    sheet.add_signal(b'E')?;
    sheet.add_signal(b'E')?;
    sheet.add_signal(b'E')?;
    let switch = sheet.add_switch(b'E', section)?;
    sheet.connect(Side::East.of(0), Side::West.of(switch))?;
    sheet.connect(Side::East.of(switch), Side::West.of(1))
}

// Prints what a plan tells of the switch 3 and how many components there are.
fn print_plan<P: Plan>(rt: &HostRuntime, name: &str, plan: &P) -> anyhow::Result<()> {
    let count = plan.count();
    println!(rt; "{name}: components {count}")?;
    print_number(rt, "the point section of 3", plan.section(3))?;
    print_far(rt, "from the east of 3", plan.far(Side::East.of(3)))?;
    print_far(rt, "from the branch of 3", plan.far(Side::Branch.of(3)))
}

fn print_sheet(rt: &HostRuntime, name: &str, sheet: &Sheet<'_>) -> anyhow::Result<()> {
    let count = sheet.count();
    let sections = sheet.sections();
    println!(rt; "{name}: components {count}, point sections {sections}")?;
    print_accepted(rt, "looking it over", sheet.look_over())
}

fn print_completing(rt: &HostRuntime, sheet: &mut Sheet<'_>) -> anyhow::Result<()> {
    print_sheet(rt, "the sheet reopened", sheet)?;
    print_far(rt, "from the east of 0", sheet.far(Side::East.of(0)))?;
    print_accepted(
        rt,
        "connecting the branch of 3",
        sheet.connect(Side::Branch.of(3), Side::West.of(2)),
    )?;
    print_sheet(rt, "the sheet whole", sheet)
}

// Closes a sheet too soon, reopens it, connects what is missing and closes it again.
fn print_without_leg(rt: &HostRuntime) -> anyhow::Result<()> {
    let mut space = [unused(); 4];
    let mut sheet = Sheet::new(&mut space);
    prepared(draw_without_leg(&mut sheet))?;
    print_sheet(rt, "a sheet with a blank leg", &sheet)?;
    let closed = sheet.close();
    print_plan(rt, "closed", &closed)?;
    let mut sheet = closed.reopen();
    print_completing(rt, &mut sheet)?;
    let closed = sheet.close();
    print_plan(rt, "closed again", &closed)?;
    print_register(rt, closed)
}

// A sheet is closed without components too where a point section has no switch.
fn print_without_switch(rt: &HostRuntime) -> anyhow::Result<()> {
    let mut space = [unused(); 2];
    let mut sheet = Sheet::new(&mut space);
    print_number(rt, "a straight section", sheet.add_straight())?;
    print_number(rt, "a point section", sheet.add_section())?;
    let closed = sheet.close();
    let count = closed.count();
    println!(rt; "closed: components {count}")?;
    Ok(())
}

pub fn print_closing(rt: &HostRuntime) -> anyhow::Result<()> {
    print_without_leg(rt)?;
    print_without_switch(rt)
}
