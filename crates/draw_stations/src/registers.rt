use anyhow::anyhow;
use fault::kinds::BoxFault;
use lines::closing::Closing;
use lines::rows::{LONGEST_LINE, write_row_line};
use plan::interface::Plan;
use register::registers::Register;
use row::writing::LONGEST_ROW;
use std::io::Write;

// More turns than the stations here have routes.
const TURNS: usize = 64;

// Prints the line that the call writes.
fn print_line<F: FnOnce(&mut [u8]) -> Result<usize, BoxFault>>(
    rt: &HostRuntime,
    write: F,
) -> anyhow::Result<()>
    requires { F.IsAlwaysCallable write }
{
    let mut line = [0; LONGEST_LINE];
    let Ok(length) = write(&mut line) else {
        return Err(anyhow!("a line was refused"));
    };
    let Some(text) = line.get(0..length) else {
        return Err(anyhow!("a line is longer than its space"));
    };
    rt.stdout().write_all(text)?;
    Ok(())
}

// The length of the next row, none where the register is drained.
fn next_length<P: Plan>(
    register: &mut Register<P>,
    space: &mut [u8],
) -> anyhow::Result<Option<usize>> {
    match register.turn(space) {
        Ok(length) => Ok(Some(length)),
        Err(BoxFault::Drained) => Ok(None),
        Err(_) => Err(anyhow!("a turn was refused for another reason than the end of the rows")),
    }
}

// Prints the rows that remain of a register, whatever its plan is, and the line that ends them. Each program that prints a
// register has such a loop, since no call of the library prints.
pub fn print_rows<P: Plan>(rt: &HostRuntime, register: &mut Register<P>) -> anyhow::Result<()> {
    let mut space = [0; LONGEST_ROW];
    for count in 0..TURNS {
        let Some(length) = next_length(register, &mut space)? else {
            return print_line(rt, |line| Closing::End(count).write(line));
        };
        let Some(row) = space.get(0..length) else {
            return Err(anyhow!("a row is longer than its space"));
        };
        print_line(rt, |line| write_row_line(row, line))?;
    }
    Err(anyhow!("the register handed out more rows than the station has routes"))
}

// Prints the register of any plan.
pub fn print_register<P: Plan + Drop>(rt: &HostRuntime, plan: P) -> anyhow::Result<()> {
    let mut register = Register::new(plan);
    print_rows(rt, &mut register)
}

// Holds two registers to each other, row by row. The spaces begin alike, so equal rows leave them alike.
pub fn compare<P: Plan, Q: Plan>(
    first: &mut Register<P>,
    second: &mut Register<Q>,
) -> anyhow::Result<()> {
    let mut row = [0; LONGEST_ROW];
    let mut other = [0; LONGEST_ROW];
    for _ in 0..TURNS {
        let length = next_length(first, &mut row)?;
        if length != next_length(second, &mut other)? || row != other {
            return Err(anyhow!("the two registers differ"));
        }
        if length.is_none() {
            return Ok(());
        }
    }
    Err(anyhow!("the registers handed out more rows than the station has routes"))
}
