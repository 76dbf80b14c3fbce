// The registers that README.md, docs/FORMAT.md and docs/ROUTES.md show, as texts.

use crate::tally::Tally;
use anyhow::anyhow;
use fault::kinds::BoxFault;
use filed::filed::FiledPlan;
use lines::closing::Closing;
use lines::rows::write_row_line;
use register::registers::Register;
use stations::{FOURTEEN, ONE_SWITCH};

// Each longer than any row, line and register of these stations.
const ROW: usize = 32;

const LINE: usize = 64;

const TURNS: usize = 64;

// Two signals whose ports are blank.
const TWO_BLANKS: [u8; 18] = [
    2, 0, 255, 255, 255, 255, 69, 255, 255, 255, 255, 69, 0, 0, 0, 0, 0, 0,
];

// Three signals of one direction, one after the other.
const AND_ON: [u8; 23] = [
    3, 0, 255, 255, 4, 0, 69, 1, 0, 8, 0, 69, 5, 0, 255, 255, 69, 0, 0, 0, 0, 0, 0,
];

// Two switches that are connected straight to straight and branch to branch.
const TWO_LEGS: [u8; 38] = [
    2, 0, 255, 255, 8, 0, 69, 13, 0, 255, 255, 69, 2, 0, 1, 0, 12, 0, 14, 0, 69, 0, 0, 9, 0, 4, 0,
    10, 0, 87, 0, 0, 0, 0, 1, 0, 2, 0,
];

// Appends what was written of a line.
fn append(text: &mut Vec<u8>, line: &[u8], written: Result<usize, BoxFault>) -> anyhow::Result<()> {
    let Ok(length) = written else {
        return Err(anyhow!("a line was refused"));
    };
    let Some(shown) = line.get(0..length) else {
        return Err(anyhow!("a line is longer than its space"));
    };
    text.extend_from_slice(shown)?;
    Ok(())
}

// The register of the file as text. Each program that shows a register has such a loop, since no call of the library prints.
fn register_text(rt: &HostRuntime, file: &[u8]) -> anyhow::Result<Vec<u8>> {
    let mut text = Vec::new(rt.alloc());
    let mut register = Register::new(FiledPlan::take(file));
    let mut space = [0; ROW];
    let mut line = [0; LINE];
    for count in 0..TURNS {
        let Ok(length) = register.turn(&mut space) else {
            let written = Closing::End(count).write(&mut line);
            append(&mut text, &line, written)?;
            return Ok(text);
        };
        let Some(row) = space.get(0..length) else {
            return Err(anyhow!("a row is longer than its space"));
        };
        let written = write_row_line(row, &mut line);
        append(&mut text, &line, written)?;
    }
    Err(anyhow!("a register has more rows than the documents show"))
}

fn hold_register(
    rt: &HostRuntime,
    tally: &mut Tally<'_>,
    name: &str,
    file: &[u8],
    shown: &[u8],
) -> anyhow::Result<()> {
    let text = register_text(rt, file)?;
    tally.hold(name, text.as_slice() == shown)
}

pub fn hold_registers(rt: &HostRuntime, tally: &mut Tally<'_>) -> anyhow::Result<()> {
    hold_register(
        rt,
        tally,
        "the register of the one-switch station",
        &ONE_SWITCH,
        b"0 3N 1\n0 3R 2\nend 2\n",
    )?;
    hold_register(
        rt,
        tally,
        "the register of the fourteen-component station",
        &FOURTEEN,
        b"0 11N 12N 5 4\n0 11N 12R 7 6\n1 13N 4 5\n1 13N 4 5 12N 11R 10R 9\n1 13R 6 7\n1 13R 6 7 12R 11R 10R 9\n2 9 10N 8\n2 9 10R 11R 12N 5 4\n2 9 10R 11R 12R 7 6\n3 8 10N 9\n5 12N 11R 10R 9\n7 12R 11R 10R 9\nend 12\n",
    )?;
    hold_register(
        rt,
        tally,
        "two blanks are no connection",
        &TWO_BLANKS,
        b"end 0\n",
    )?;
    hold_register(
        rt,
        tally,
        "on past a signal of the direction",
        &AND_ON,
        b"0 1\n0 1 2\n1 2\nend 3\n",
    )?;
    hold_register(
        rt,
        tally,
        "the same components, switches lying otherwise",
        &TWO_LEGS,
        b"0 2N 3N 1\n0 2R 3R 1\nend 2\n",
    )
}
