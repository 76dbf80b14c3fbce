use anyhow::anyhow;
use fault::kinds::Told;
use filed::filed::FiledPlan;
use register::registers::{MOST_ROWS, Register};

// A blank as files store it; in the library it is a None.
const BLANK: u16 = 65_535;

// One turn more than a register has rows to hand out.
const TURNS: usize = MOST_ROWS as usize + 1;

// A row of 16 pairs: its count, and the entries of two signals and 32 switches.
const LADDER_ROW: usize = 70;

fn push_number(file: &mut Vec<u8>, n: u16) -> anyhow::Result<()> {
    file.extend_from_slice(&n.to_le_bytes())?;
    Ok(())
}

fn push_signal(file: &mut Vec<u8>, west: u16, east: u16) -> anyhow::Result<()> {
    push_number(file, west)?;
    push_number(file, east)?;
    file.push(b'E')?;
    Ok(())
}

// A switch of point section 0, with the far ports of its west port, its east port and its branch.
fn push_switch(file: &mut Vec<u8>, far: [u16; 3], letter: u8) -> anyhow::Result<()> {
    let [west, east, branch] = far;
    push_number(file, west)?;
    push_number(file, east)?;
    push_number(file, branch)?;
    file.push(letter)?;
    push_number(file, 0)
}

// The file of a line of track to the east: a signal, pairs of switches that are joined at both legs, and a signal.
// A port is 4 times its component, and 0 (west), 1 (east) or 2 (branch) more.
fn ladder(rt: &HostRuntime, pairs: u8) -> anyhow::Result<Vec<u8>> {
    let switches = 2 * u16::from(pairs);
    let mut file = Vec::new(rt.alloc());
    push_number(&mut file, 2)?;
    push_signal(&mut file, BLANK, 8)?;
    push_signal(&mut file, 4 * switches + 5, BLANK)?;
    push_number(&mut file, switches)?;
    for pair in 0..u16::from(pairs) {
        let first = 4 * (2 + 2 * pair);
        let second = first + 4;
        let before = if pair == 0 { 1 } else { first - 3 };
        let behind = if second == 4 * switches + 4 {
            4
        } else {
            second + 4
        };
        push_switch(&mut file, [before, second, second + 2], b'E')?;
        push_switch(&mut file, [first + 1, behind, first + 2], b'W')?;
    }
    push_number(&mut file, 0)?;
    push_number(&mut file, 1)?;
    push_number(&mut file, switches)?;
    Ok(file)
}

// Turns until one is refused, and prints how many were accepted and the number of the refusal.
fn print_rest(
    rt: &HostRuntime,
    register: &mut Register<FiledPlan<'_>>,
    space: &mut [u8],
) -> anyhow::Result<()> {
    for count in 0..TURNS {
        let Err(fault) = register.turn(space) else {
            continue;
        };
        let number = Told::from(fault).number;
        println!(rt; "{count} rows, then refused {number}")?;
        return Ok(());
    }
    Err(anyhow!("the register handed out more rows than it may"))
}

// Two registers to their ends: one that is drained, and one whose rows are spent, which was restarted on the way. A turn
// after a refused one is refused again.
pub fn print_ladders(rt: &HostRuntime) -> anyhow::Result<()> {
    let mut space = [0; LADDER_ROW];
    let fifteen = ladder(rt, 15)?;
    let mut register = Register::new(FiledPlan::take(fifteen.as_slice()));
    print_rest(rt, &mut register, &mut space)?;
    print_rest(rt, &mut register, &mut space)?;

    let sixteen = ladder(rt, 16)?;
    let mut register = Register::new(FiledPlan::take(sixteen.as_slice()));
    let _ = register.turn(&mut space);
    let _ = register.turn(&mut space);
    register.restart();
    print_rest(rt, &mut register, &mut space)?;
    print_rest(rt, &mut register, &mut space)
}
