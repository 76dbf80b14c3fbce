// Worked examples: what each call answers, held to a text that was worked out by hand from the rules.
#![tactic(auto)]

mod damages;
mod judgements;
mod table;
mod turns;

use damages::print_damages;
use judgements::print_judgements;
use table::print_table;
use turns::print_turns;

fn run(rt: &HostRuntime) -> anyhow::Result<()> {
    print_damages(rt)?;
    print_judgements(rt)?;
    print_table(rt)?;
    print_turns(rt)
}

fn main(rt: HostRuntime) -> anyhow::Result<()> {
    run(&rt)
}
