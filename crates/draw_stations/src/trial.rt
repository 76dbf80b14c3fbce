use fault::kinds::PlanFault;
use plan::parts::{Kind, Side};
use sheet::component::Component;
use sheet::sheet::Sheet;

// What the records that are lent hold at first. A sheet takes it for nothing.
pub fn unused() -> Component {
    Component::blank(Kind::Straight, 0)
}

// Adds the signals 0 and 1 and the switches 2 and 3 of one point section, the legs of 2 facing east and those of 3 west.
pub fn add_parts(sheet: &mut Sheet<'_>) -> Result<(), PlanFault> {
    let section = sheet.add_section()?;
    sheet.add_signal(b'E')?;
    sheet.add_signal(b'E')?;
    sheet.add_switch(b'E', section)?;
    sheet.add_switch(b'W', section)?;
    Ok(())
}

// Connects them: signal 0, the root of switch 2, both legs with those of switch 3, its root, signal 1.
pub fn connect_parts(sheet: &mut Sheet<'_>) -> Result<(), PlanFault> {
    sheet.connect(Side::East.of(0), Side::West.of(2))?;
    sheet.connect(Side::East.of(2), Side::West.of(3))?;
    sheet.connect(Side::Branch.of(2), Side::Branch.of(3))?;
    sheet.connect(Side::East.of(3), Side::West.of(1))
}
