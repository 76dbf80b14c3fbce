use crate::answers::{prepared, print_far, print_number};
use crate::trial::unused;
use fault::kinds::PlanFault;
use plan::parts::Side;
use sheet::sheet::Sheet;

fn print_space_for_three(rt: &HostRuntime) -> anyhow::Result<()> {
    let mut space = [unused(); 3];
    let mut sheet = Sheet::new(&mut space);
    print_number(rt, "a signal in a space for three", sheet.add_signal(b'W'))?;
    print_number(rt, "a second component", sheet.add_straight())?;
    print_number(rt, "a third", sheet.add_signal(b'E'))?;
    print_number(rt, "a fourth that is straight", sheet.add_straight())?;
    print_number(rt, "a fourth that is a signal", sheet.add_signal(b'E'))?;
    print_number(rt, "full before a wrong letter", sheet.add_signal(b'X'))?;
    print_number(
        rt,
        "full before no such point section",
        sheet.add_switch(b'E', 0),
    )?;
    print_number(rt, "a point section takes no record", sheet.add_section())?;
    print_number(
        rt,
        "a fourth that is a switch of it",
        sheet.add_switch(b'E', 0),
    )
}

fn print_no_space(rt: &HostRuntime) -> anyhow::Result<()> {
    let mut space = [unused(); 0];
    let mut sheet = Sheet::new(&mut space);
    print_number(rt, "a straight section in no space", sheet.add_straight())
}

fn draw_pair(sheet: &mut Sheet<'_>) -> Result<(), PlanFault> {
    let first = sheet.add_straight()?;
    let second = sheet.add_straight()?;
    sheet.connect(Side::East.of(first), Side::West.of(second))
}

// What the records name that another sheet left behind counts for nothing.
fn print_used_space(rt: &HostRuntime) -> anyhow::Result<()> {
    let mut space = [unused(); 2];
    let mut sheet = Sheet::new(&mut space);
    prepared(draw_pair(&mut sheet))?;
    let mut sheet = Sheet::new(&mut space);
    print_number(
        rt,
        "a straight section in a used space",
        sheet.add_straight(),
    )?;
    print_far(rt, "from its east", sheet.far(Side::East.of(0)))?;
    print_far(
        rt,
        "from a component that is not added yet",
        sheet.far(Side::West.of(1)),
    )?;
    print_number(rt, "a second beside it", sheet.add_straight())?;
    print_far(
        rt,
        "from the west of the second",
        sheet.far(Side::West.of(1)),
    )?;
    print_far(
        rt,
        "from the east of the first",
        sheet.far(Side::East.of(0)),
    )
}

fn print_letters(rt: &HostRuntime) -> anyhow::Result<()> {
    let mut space = [unused(); 3];
    let mut sheet = Sheet::new(&mut space);
    print_number(rt, "a point section", sheet.add_section())?;
    print_number(rt, "a signal with a small letter", sheet.add_signal(b'e'))?;
    print_number(rt, "a signal with the letter 0", sheet.add_signal(0))?;
    print_number(
        rt,
        "a switch with a wrong letter",
        sheet.add_switch(b'N', 0),
    )?;
    print_number(
        rt,
        "a letter before no such point section",
        sheet.add_switch(b'N', 1),
    )?;
    print_number(
        rt,
        "a switch of no such point section",
        sheet.add_switch(b'E', 1),
    )?;
    print_number(
        rt,
        "a switch of point section 65535",
        sheet.add_switch(b'W', 65_535),
    )?;
    print_number(
        rt,
        "a switch of the point section",
        sheet.add_switch(b'W', 0),
    )
}

// Makes a call so many times that must be accepted.
fn repeated<F: FnMut() -> Result<u16, PlanFault>>(count: u16, mut call: F) -> anyhow::Result<()>
    requires { F.IsAlwaysCallable call }
{
    for _ in 0..count {
        prepared(call().map(|_| ()))?;
    }
    Ok(())
}

// The space has room for more than there may be.
fn print_most_components(rt: &HostRuntime) -> anyhow::Result<()> {
    let mut space = [unused(); 600];
    let mut sheet = Sheet::new(&mut space);
    repeated(511, || sheet.add_straight())?;
    print_number(rt, "the 512th component", sheet.add_signal(b'E'))?;
    print_number(rt, "the 513th", sheet.add_straight())?;
    print_number(
        rt,
        "a point section beside 512 components",
        sheet.add_section(),
    )
}

fn print_most_sections(rt: &HostRuntime) -> anyhow::Result<()> {
    let mut space = [unused(); 2];
    let mut sheet = Sheet::new(&mut space);
    repeated(511, || sheet.add_section())?;
    print_number(
        rt,
        "a switch of the 512th point section too soon",
        sheet.add_switch(b'E', 511),
    )?;
    print_number(rt, "the 512th point section", sheet.add_section())?;
    print_number(rt, "the 513th", sheet.add_section())?;
    print_number(rt, "a switch of the 513th", sheet.add_switch(b'E', 512))?;
    print_number(rt, "a switch of the 512th", sheet.add_switch(b'E', 511))
}

pub fn print_adding(rt: &HostRuntime) -> anyhow::Result<()> {
    print_space_for_three(rt)?;
    print_no_space(rt)?;
    print_used_space(rt)?;
    print_letters(rt)?;
    print_most_components(rt)?;
    print_most_sections(rt)
}
