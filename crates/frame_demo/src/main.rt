// Two days at a signal box: every call with its answer, held to a text that was worked out by hand from the rules.
#![tactic(auto)]

mod days;
mod plans;

use days::print_days;

fn main(rt: HostRuntime) -> anyhow::Result<()> {
    let mut pool = Vec::new(rt.alloc());
    let printed = print_days(&rt, &mut pool);
    pool.destroy_empty();
    printed
}
