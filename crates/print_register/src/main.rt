// Reads a plan file from standard input and prints its route register.
#![tactic(auto)]

mod input;
mod output;

use anyhow::anyhow;
use fault::kinds::{BoxFault, Told};
use filed::filed::FiledPlan;
use input::read_file;
use lines::closing::Closing;
use output::Output;
use register::registers::{MOST_ROWS, Register};
use row::writing::LONGEST_ROW;

// One turn more than a register has rows to hand out: the last one is always refused.
const TURNS: usize = MOST_ROWS as usize + 1;

// Prints the rows of a plan, and the line that ends them. Each program that prints a register has such a loop: a call of
// the library that handed lines on would owe a contract of what it hands, and none can say what a program prints.
fn print_rows(plan: FiledPlan<'_>, output: &mut Output) -> anyhow::Result<()> {
    let mut register = Register::new(plan);
    let mut space = [0; LONGEST_ROW];
    for count in 0..TURNS {
        let length = match register.turn(&mut space) {
            Ok(length) => length,
            Err(BoxFault::Drained) => return output.close(Closing::End(count)),
            Err(BoxFault::RowsSpent) => return output.close(Closing::Full(count)),
            Err(_) => return Err(anyhow!(
                "a turn was refused for another reason than the end of the rows"
            )),
        };
        let Some(row) = space.get(0..length) else {
            return Err(anyhow!("a row is longer than its space"));
        };
        output.row(row)?;
    }
    Err(anyhow!("the register handed out more rows than it may"))
}

fn run(rt: &HostRuntime) -> anyhow::Result<()> {
    let input = read_file(rt)?;
    let file = input.as_slice();
    let mut output = Output::new(rt)?;
    match FiledPlan::try_from(file) {
        Ok(plan) => print_rows(plan, &mut output),
        Err(fault) => {
            let told = Told::from(fault);
            output.close(Closing::Refused(told.number, told.place))
        }
    }
}

fn main(rt: HostRuntime) -> anyhow::Result<()> {
    run(&rt)
}
