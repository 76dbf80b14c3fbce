use anyhow::anyhow;
use fault::kinds::{PlanFault, Told};
use plan::parts::Port;
use std::fmt;

// The number that a component or point section got.
#[derive(Clone, Copy)]
struct Number(u16);

impl fmt::Display for Number {
    fn fmt<W: fmt::Write>(&self, f: &mut fmt::Formatter<W>) -> fmt::Result {
        let number = self.0;
        write!(f, "number {number}")
    }
}

// What a port is connected to.
#[derive(Clone, Copy)]
struct Far(Option<Port>);

impl fmt::Display for Far {
    fn fmt<W: fmt::Write>(&self, f: &mut fmt::Formatter<W>) -> fmt::Result {
        let Some(port) = self.0 else {
            return f.write_str("blank");
        };
        let (side, component) = (port.side, port.component);
        write!(f, "{side} of {component}")
    }
}

fn print_answer<T: fmt::Display + Drop>(
    rt: &HostRuntime,
    name: &str,
    answer: Result<T, PlanFault>,
) -> anyhow::Result<()> {
    match answer {
        Ok(value) => println!(rt; "{name}: {value}")?,
        Err(fault) => {
            let told = Told::from(fault);
            println!(rt; "{name}: {told}")?;
        }
    }
    Ok(())
}

// Prints what a call answers that only accepts or refuses.
pub fn print_accepted(
    rt: &HostRuntime,
    name: &str,
    answer: Result<(), PlanFault>,
) -> anyhow::Result<()> {
    print_answer(rt, name, answer.map(|()| "accepted"))
}

pub fn print_number(
    rt: &HostRuntime,
    name: &str,
    answer: Result<u16, PlanFault>,
) -> anyhow::Result<()> {
    print_answer(rt, name, answer.map(Number))
}

pub fn print_far(
    rt: &HostRuntime,
    name: &str,
    answer: Result<Option<Port>, PlanFault>,
) -> anyhow::Result<()> {
    print_answer(rt, name, answer.map(Far))
}

// A call that prepares a trial must be accepted.
pub fn prepared(answer: Result<(), PlanFault>) -> anyhow::Result<()> {
    answer.map_err(|_| anyhow!("a call was refused that only prepares a trial"))
}
