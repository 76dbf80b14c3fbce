// Draws two stations on sheets and prints their registers, which must be those of the filed plans. Then it tries the
// calls of the sheet one by one. What it prints is held to a text that was worked out by hand from the rules.
#![tactic(auto)]

mod adding;
mod answers;
mod closing;
mod connecting;
mod disconnecting;
mod drawing;
mod looking;
mod registers;
mod trial;

use adding::print_adding;
use closing::print_closing;
use connecting::print_connecting;
use disconnecting::print_disconnecting;
use drawing::print_stations;
use looking::print_looking;

fn run(rt: &HostRuntime) -> anyhow::Result<()> {
    print_stations(rt)?;
    print_adding(rt)?;
    print_connecting(rt)?;
    print_disconnecting(rt)?;
    print_looking(rt)?;
    print_closing(rt)
}

fn main(rt: HostRuntime) -> anyhow::Result<()> {
    run(&rt)
}
