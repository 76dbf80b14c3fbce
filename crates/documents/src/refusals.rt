// What docs/REFUSALS.md says of layers and of the order of tests, and docs/ROUTES.md of judging.

use crate::tally::Tally;
use fault::kinds::{BoxFault, Layer, Told};
use file::look::look_over;
use filed::filed::FiledPlan;
use judging::judgement::judge;
use judging::shared::shared;
use lines::rows::write_row_line;
use stations::ONE_SWITCH;

// The rows 0 3N 1 and 0 3R 2.
const FIRST: [u8; 8] = [3, 0, 0, 0, 13, 0, 4, 0];

const SECOND: [u8; 8] = [3, 0, 0, 0, 14, 0, 8, 0];

fn told(layer: Layer, number: u8, place: usize) -> Told {
    Told {
        layer,
        number,
        place,
    }
}

fn is_refused(file: &[u8], layer: Layer, number: u8, place: usize) -> bool {
    look_over(file).is_err_and(|fault| Told::from(fault) == told(layer, number, place))
}

fn hold_first_reading(tally: &mut Tally<'_>) -> anyhow::Result<()> {
    tally.hold(
        "a letter before a record that is cut off: 4 at 6, of the file",
        is_refused(
            &[2, 0, 255, 255, 255, 255, 101, 255, 255],
            Layer::File,
            4,
            6,
        ),
    )?;
    tally.hold(
        "a count above 512 before its records: 3 at 0, of the file",
        is_refused(&[1, 2], Layer::File, 3, 0),
    )?;
    // a far port that does not exist, and a byte more
    let mut file = [0; 35];
    file[0..34].copy_from_slice(&ONE_SWITCH);
    file[4] = 32;
    file[5] = 3;
    tally.hold(
        "left over before a far port: 2 at 34, of the file",
        is_refused(&file, Layer::File, 2, 34),
    )
}

fn hold_second_reading(tally: &mut Tally<'_>) -> anyhow::Result<()> {
    let mut file = ONE_SWITCH;
    file[23] = 255;
    file[24] = 255;
    tally.hold(
        "a signal's field before the switch's: 7 at 12, of the plan",
        is_refused(&file, Layer::Plan, 7, 12),
    )?;
    file[12] = 255;
    file[13] = 255;
    tally.hold(
        "a blank on a switch: 9 at 23, of the plan",
        is_refused(&file, Layer::Plan, 9, 23),
    )
}

fn judged(row: &[u8]) -> Result<(), BoxFault> {
    judge(&FiledPlan::take(&ONE_SWITCH), row)
}

fn goes_wrong(row: &[u8], place: usize) -> bool {
    judged(row).is_err_and(|fault| Told::from(fault) == told(Layer::Box, 15, place))
}

fn hold_judging(tally: &mut Tally<'_>) -> anyhow::Result<()> {
    tally.hold("0 3N 1: a route", judged(&FIRST).is_ok())?;
    tally.hold(
        "0 3N 2: no route, at 2",
        goes_wrong(&[3, 0, 0, 0, 13, 0, 8, 0], 2),
    )?;
    tally.hold("0 3N: no route, at 2", goes_wrong(&[2, 0, 0, 0, 13, 0], 2))?;
    tally.hold("3N 1: no route, at 0", goes_wrong(&[2, 0, 13, 0, 4, 0], 0))?;
    tally.hold(
        "0 3N 1 and 0 3R 2 share two",
        shared(&FIRST, &SECOND) == Ok(2),
    )
}

fn is_line_refused(row: &[u8], space: &mut [u8], number: u8) -> bool {
    write_row_line(row, space).is_err_and(|fault| Told::from(fault) == told(Layer::Box, number, 0))
}

fn hold_lines(tally: &mut Tally<'_>) -> anyhow::Result<()> {
    let mut space = [0; 6];
    tally.hold(
        "no row before too short a space: 14",
        is_line_refused(&[], &mut space, 14),
    )?;
    tally.hold(
        "a line of seven bytes in a space of six: 11",
        is_line_refused(&FIRST, &mut space, 11),
    )
}

pub fn hold_refusals(tally: &mut Tally<'_>) -> anyhow::Result<()> {
    hold_first_reading(tally)?;
    hold_second_reading(tally)?;
    hold_judging(tally)?;
    hold_lines(tally)
}
