ghost use Rattle.std.specs.Prelude.{◌≡◌, ◌+◌, ◌^◌, ◌<◌};
ghost use Rattle.file.specs.Checks.{first_failing, each};
ghost use Rattle.file.specs.Readings.{size, letter_in, record_checks, nth_record, section_checks, signal_section, switch_section, straight_section, point_sections, rest, first_reading};

use crate::contents::Contents;
use crate::sorts::Sort;
use fault::kinds::FileFault;
use numbers::byte_at;
use plan::parts::{Direction, WrongLetter};

impl Sort {
    fn size(self) -> usize
        ensures { result ≡ size self }
    {
        match self {
            Sort::Signal => 5,
            Sort::Switch => 9,
            Sort::Straight => 4,
            Sort::PointSection => 2,
        }
    }

    // Where in a record its letter stands.
    fn letter(self) -> Option<usize>
        ensures { result ≡ letter_in self }
    {
        match self {
            Sort::Signal => Some(4),
            Sort::Switch => Some(6),
            Sort::Straight | Sort::PointSection => None,
        }
    }
}

fn read_record(bytes: &[u8], at: usize, sort: Sort) -> Result<(), FileFault>
    requires { at < 2 ^ 32 }
    ensures { result ≡ first_failing (record_checks bytes.now at sort) }
{
    if at + sort.size() > bytes.len() {
        return Err(FileFault::CutOff(at));
    }
    let Some(letter) = sort.letter() else {
        return Ok(());
    };
    match Direction::try_from(byte_at(bytes, at + letter)) {
        Ok(_) => Ok(()),
        Err(WrongLetter) => Err(FileFault::WrongLetter(at + letter)),
    }
}

fn read_records(bytes: &[u8], from: usize, count: u16, sort: Sort) -> Result<(), FileFault>
    requires { from < 2 ^ 30 }
    ensures { result ≡ first_failing (each count (nth_record bytes.now from sort)) }
{
    // by number, since a record may be cut off where a slice of records would end
    for i in 0..usize::from(count) {
        read_record(bytes, from + sort.size() * i, sort)?;
    }
    Ok(())
}

// A section whose count stands at `at`, after `before` of those that it is counted with. The five parameters are one
// section's, but each caller has others: a struct would be built for a single call.
fn read_section(
    bytes: &[u8],
    at: usize,
    before: usize,
    count: u16,
    sort: Sort,
) -> Result<(), FileFault>
    requires { (at < 2 ^ 29) × (before < 2 ^ 29) }
    ensures { result ≡ first_failing (section_checks bytes.now at before count sort) }
{
    if at + 2 > bytes.len() {
        return Err(FileFault::CutOff(at));
    }
    if before + usize::from(count) > 512 {
        return Err(FileFault::TooMany(at));
    }
    read_records(bytes, at + 2, count, sort)
}

fn read_signals(file: &Contents) -> Result<(), FileFault>
    ensures { result ≡ first_failing (signal_section file.now.bytes.now) }
{
    read_section(file.bytes, 0, 0, file.signals, Sort::Signal)
}

fn read_switches(file: &Contents) -> Result<(), FileFault>
    ensures { result ≡ first_failing (switch_section file.now.bytes.now) }
{
    read_section(
        file.bytes,
        file.switches_at(),
        usize::from(file.signals),
        file.switches,
        Sort::Switch,
    )
}

fn read_straights(file: &Contents) -> Result<(), FileFault>
    ensures { result ≡ first_failing (straight_section file.now.bytes.now) }
{
    let before = usize::from(file.signals) + usize::from(file.switches);
    read_section(
        file.bytes,
        file.straights_at(),
        before,
        file.straights,
        Sort::Straight,
    )
}

fn read_sections(file: &Contents) -> Result<(), FileFault>
    ensures { result ≡ first_failing (point_sections file.now.bytes.now) }
{
    read_section(
        file.bytes,
        file.sections_at(),
        0,
        file.sections,
        Sort::PointSection,
    )
}

fn read_rest(file: &Contents) -> Result<(), FileFault>
    ensures { result ≡ first_failing (rest file.now.bytes.now) }
{
    let end = file.end();
    if end < file.bytes.len() {
        Err(FileFault::LeftOver(end))
    } else {
        Ok(())
    }
}

// From the front, record by record.
pub(crate) fn first_reading(file: &Contents) -> Result<(), FileFault>
    ensures { result ≡ first_failing (first_reading file.now.bytes.now) }
{
    read_signals(file)?;
    read_switches(file)?;
    read_straights(file)?;
    read_sections(file)?;
    read_rest(file)
}
