use crate::answers::prepared;
use crate::registers::{compare, print_rows};
use crate::trial::unused;
use fault::kinds::PlanFault;
use filed::filed::FiledPlan;
use plan::interface::Plan;
use plan::parts::Side;
use register::registers::Register;
use sheet::sheet::Sheet;
use stations::{FOURTEEN, ONE_SWITCH};

// The connections of the fourteen-component station, the western port first. s1 to s10 are 0 to 9, w1 to w4 are 10 to 13.
const CONNECTIONS: [(u16, Side, u16, Side); 14] = [
    (2, Side::East, 9, Side::West),
    (9, Side::East, 10, Side::West),
    (10, Side::East, 8, Side::West),
    (8, Side::East, 3, Side::West),
    (10, Side::Branch, 11, Side::Branch),
    (0, Side::East, 11, Side::West),
    (11, Side::East, 12, Side::West),
    (12, Side::East, 5, Side::West),
    (5, Side::East, 4, Side::West),
    (4, Side::East, 13, Side::West),
    (12, Side::Branch, 7, Side::West),
    (7, Side::East, 6, Side::West),
    (6, Side::East, 13, Side::Branch),
    (13, Side::East, 1, Side::West),
];

// Three signals and one switch.
fn draw_one_switch(sheet: &mut Sheet<'_>) -> Result<(), PlanFault> {
    let section = sheet.add_section()?;
    let from = sheet.add_signal(b'E')?;
    let straight_on = sheet.add_signal(b'E')?;
    let beside = sheet.add_signal(b'E')?;
    let switch = sheet.add_switch(b'E', section)?;
    sheet.connect(Side::East.of(from), Side::West.of(switch))?;
    sheet.connect(Side::East.of(switch), Side::West.of(straight_on))?;
    sheet.connect(Side::Branch.of(switch), Side::West.of(beside))
}

// Ten signals and four switches, each switch in a point section of its own.
fn draw_fourteen(sheet: &mut Sheet<'_>) -> Result<(), PlanFault> {
    for letter in b"EWEWEWEWEW" {
        sheet.add_signal(*letter)?;
    }
    for letter in b"EWEW" {
        let section = sheet.add_section()?;
        sheet.add_switch(*letter, section)?;
    }
    for (a, a_side, b, b_side) in CONNECTIONS {
        sheet.connect(a_side.of(a), b_side.of(b))?;
    }
    Ok(())
}

// Prints the register of a plan that was drawn, which must be that of the file.
fn print_station<P: Plan + Drop>(
    rt: &HostRuntime,
    name: &str,
    plan: P,
    file: &[u8],
) -> anyhow::Result<()> {
    let mut drawn = Register::new(plan);
    let mut filed = Register::new(FiledPlan::take(file));
    println!(rt; "{name}")?;
    print_rows(rt, &mut drawn)?;
    drawn.restart();
    compare(&mut drawn, &mut filed)?;
    println!(rt; "as filed")?;
    Ok(())
}

fn print_one_switch(rt: &HostRuntime) -> anyhow::Result<()> {
    let mut space = [unused(); 4];
    let mut sheet = Sheet::new(&mut space);
    prepared(draw_one_switch(&mut sheet))?;
    print_station(rt, "the one-switch station", sheet.close(), &ONE_SWITCH)
}

fn print_fourteen(rt: &HostRuntime) -> anyhow::Result<()> {
    let mut space = [unused(); 14];
    let mut sheet = Sheet::new(&mut space);
    prepared(draw_fourteen(&mut sheet))?;
    print_station(
        rt,
        "the fourteen-component station",
        sheet.close(),
        &FOURTEEN,
    )
}

pub fn print_stations(rt: &HostRuntime) -> anyhow::Result<()> {
    print_one_switch(rt)?;
    print_fourteen(rt)
}
