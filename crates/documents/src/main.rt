// What the documents say by example, compared with what the library answers: registers to their ends, and the station
// with one switch field by field.
#![tactic(auto)]

mod fields;
mod ladders;
mod refusals;
mod registers;
mod tally;

use fields::hold_fields;
use ladders::print_ladders;
use refusals::hold_refusals;
use registers::hold_registers;
use table::examples::examples_hold;
use tally::Tally;

// The examples of the one-switch station that are rows of a proved table: no run is needed to see that they hold.
fn print_proved(rt: &HostRuntime) -> anyhow::Result<()> {
    let count = examples_hold();
    println!(rt; "proved without a run: {count}")?;
    Ok(())
}

// The examples of the documents: each is compared with what the document says, and counted.
fn print_documents(rt: &HostRuntime) -> anyhow::Result<()> {
    let mut tally = Tally::new(rt);
    hold_fields(&mut tally)?;
    hold_registers(rt, &mut tally)?;
    hold_refusals(&mut tally)?;
    tally.print()
}

fn run(rt: &HostRuntime) -> anyhow::Result<()> {
    print_ladders(rt)?;
    print_proved(rt)?;
    print_documents(rt)
}

fn main(rt: HostRuntime) -> anyhow::Result<()> {
    run(&rt)
}
