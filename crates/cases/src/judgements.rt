use fault::kinds::Told;
use filed::filed::FiledPlan;
use judging::judgement::judge;
use stations::{FOURTEEN, ONE_SWITCH};

// Rows of the one-switch station: its routes, other paths, and what is no row.
const ONE_SWITCH_ROWS: [(&str, &[u8]); 21] = [
    ("its first route", &[3, 0, 0, 0, 13, 0, 4, 0]),
    ("its second route", &[3, 0, 0, 0, 14, 0, 8, 0]),
    ("the wrong leg", &[3, 0, 0, 0, 13, 0, 8, 0]),
    ("cut short at the switch", &[2, 0, 0, 0, 13, 0]),
    ("cut short, lying reverse", &[2, 0, 0, 0, 14, 0]),
    ("a component twice", &[4, 0, 0, 0, 13, 0, 4, 0, 0, 0]),
    ("the start twice", &[2, 0, 0, 0, 0, 0]),
    ("an unknown component", &[2, 0, 0, 0, 252, 7]),
    ("an unknown start", &[2, 0, 16, 0, 0, 0]),
    ("a start at the switch", &[2, 0, 13, 0, 4, 0]),
    ("a start that lies normal", &[3, 0, 1, 0, 13, 0, 4, 0]),
    ("a switch that does not lie", &[3, 0, 0, 0, 12, 0, 4, 0]),
    ("a signal that lies", &[3, 0, 0, 0, 13, 0, 5, 0]),
    ("past the end of the line", &[4, 0, 0, 0, 13, 0, 4, 0, 8, 0]),
    ("no bytes", &[]),
    ("a count alone", &[2, 0]),
    ("one entry", &[1, 0, 0, 0]),
    ("an odd byte more", &[2, 0, 0, 0, 13, 0, 0]),
    ("an entry that leaves 3", &[2, 0, 0, 0, 15, 0]),
    ("an entry of 2,048", &[2, 0, 0, 0, 0, 8]),
    ("a count that is too great", &[3, 0, 0, 0, 13, 0]),
];

// The twelve routes of the fourteen-component station.
pub const ROUTES: [(&str, &[u8]); 12] = [
    ("route 1", &[4, 0, 8, 0, 36, 0, 41, 0, 32, 0]),
    ("route 2", &[4, 0, 4, 0, 53, 0, 16, 0, 20, 0]),
    ("route 3", &[4, 0, 4, 0, 54, 0, 24, 0, 28, 0]),
    ("route 4", &[4, 0, 12, 0, 32, 0, 41, 0, 36, 0]),
    ("route 5", &[5, 0, 0, 0, 45, 0, 49, 0, 20, 0, 16, 0]),
    ("route 6", &[5, 0, 0, 0, 45, 0, 50, 0, 28, 0, 24, 0]),
    ("route 7", &[5, 0, 20, 0, 49, 0, 46, 0, 42, 0, 36, 0]),
    ("route 8", &[5, 0, 28, 0, 50, 0, 46, 0, 42, 0, 36, 0]),
    (
        "route 9",
        &[7, 0, 8, 0, 36, 0, 42, 0, 46, 0, 49, 0, 20, 0, 16, 0],
    ),
    (
        "route 10",
        &[7, 0, 8, 0, 36, 0, 42, 0, 46, 0, 50, 0, 28, 0, 24, 0],
    ),
    (
        "route 11",
        &[8, 0, 4, 0, 53, 0, 16, 0, 20, 0, 49, 0, 46, 0, 42, 0, 36, 0],
    ),
    (
        "route 12",
        &[8, 0, 4, 0, 54, 0, 24, 0, 28, 0, 50, 0, 46, 0, 42, 0, 36, 0],
    ),
];

// Each is one of those with something changed.
const CHANGES: [(&str, &[u8]); 14] = [
    (
        "route 1 with w1 reverse",
        &[4, 0, 8, 0, 36, 0, 42, 0, 32, 0],
    ),
    ("route 1 to s4", &[5, 0, 8, 0, 36, 0, 41, 0, 32, 0, 12, 0]),
    ("route 1 without its end", &[3, 0, 8, 0, 36, 0, 41, 0]),
    (
        "route 2 with w4 reverse",
        &[4, 0, 4, 0, 54, 0, 16, 0, 20, 0],
    ),
    (
        "route 4 with w1 reverse",
        &[4, 0, 12, 0, 32, 0, 42, 0, 36, 0],
    ),
    (
        "route 5 with w2 reverse",
        &[5, 0, 0, 0, 46, 0, 49, 0, 20, 0, 16, 0],
    ),
    (
        "route 5 with w3 reverse",
        &[5, 0, 0, 0, 45, 0, 50, 0, 20, 0, 16, 0],
    ),
    ("route 5 from s2", &[5, 0, 4, 0, 45, 0, 49, 0, 20, 0, 16, 0]),
    ("route 5 to s6", &[4, 0, 0, 0, 45, 0, 49, 0, 20, 0]),
    (
        "route 7 with w2 normal",
        &[5, 0, 20, 0, 49, 0, 45, 0, 42, 0, 36, 0],
    ),
    (
        "route 7 with w1 normal",
        &[5, 0, 20, 0, 49, 0, 46, 0, 41, 0, 36, 0],
    ),
    (
        "route 8 with w3 normal",
        &[5, 0, 28, 0, 49, 0, 46, 0, 42, 0, 36, 0],
    ),
    ("route 11 ending at s5", &[3, 0, 4, 0, 53, 0, 16, 0]),
    (
        "route 12 with s8 for s7",
        &[8, 0, 4, 0, 54, 0, 28, 0, 28, 0, 50, 0, 46, 0, 42, 0, 36, 0],
    ),
];

// Prints what judging each row against the file's plan answers.
fn print_rows(rt: &HostRuntime, file: &[u8], rows: &[(&str, &[u8])]) -> anyhow::Result<()> {
    let plan = FiledPlan::take(file);
    for (name, row) in rows {
        match judge(&plan, row) {
            Ok(()) => println!(rt; "{name}: a route")?,
            Err(fault) => {
                let told = Told::from(fault);
                println!(rt; "{name}: {told}")?;
            }
        }
    }
    Ok(())
}

pub fn print_judgements(rt: &HostRuntime) -> anyhow::Result<()> {
    print_rows(rt, &ONE_SWITCH, &ONE_SWITCH_ROWS)?;
    print_rows(rt, &FOURTEEN, &ROUTES)?;
    print_rows(rt, &FOURTEEN, &CHANGES)
}
