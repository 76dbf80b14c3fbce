ghost use Rattle.std.specs.Prelude.{◌≡◌, ◌+◌, ◌<◌, ◌≤◌, [], ◌∷◌, ◌++◌, true, length};
ghost use Rattle.numbers.specs.Stored.{number};
ghost use Rattle.row.specs.Row.{is_row, entries_of};
ghost use Rattle.lines.specs.Lines.{shown, row_line, row_line_told, row_line_left};
ghost use Rattle.lines.specs.Written.{HasRoom, Written};

use crate::digits::digit_count;
use crate::line::Line;
use entry::{component, lie};
use fault::kinds::BoxFault;
use plan::parts::Position;
use row::shape::{entry_count, is_row, pairs};

// The longest line: 512 components of three digits, each with its letter and a space or the line's end behind it.
pub const LONGEST_LINE: usize = 2_560;

// How long an entry is in print.
fn shown_count(e: u16) -> usize
    ensures value { result ≡ length (shown e) }
    ensures few { result ≤ 21 }
{
    digit_count(usize::from(component(e))) + usize::from(lie(e).is_some())
}

// How long the line of a row is.
fn line_count(row: &[u8]) -> usize
    requires { is_row row.now ≡ true }
    ensures { result ≡ length (row_line (entries_of row.now)) }
{
    pairs(row)
        .iter()
        .map(|pair| shown_count(u16::from_le_bytes(*pair)) + 1)
        .sum()
}

impl Line<'_> {
    #[inline]
    fn entry(&mut self, e: u16)
        requires small { e < 2048 }
        requires room { HasRoom self.old (shown e) }
        ensures { Written self.old self.new (shown e) }
    {
        self.small(component(e));
        match lie(e) {
            Some(Position::Normal) => self.byte(b'N'),
            Some(Position::Reverse) => self.byte(b'R'),
            None => {}
        }
    }

    // The entry that two bytes hold, and a byte behind it.
    #[inline]
    fn pair(&mut self, pair: [u8; 2], stop: u8)
        requires small { number pair 0 < 2048 }
        requires room { HasRoom self.old (shown (number pair 0) ++ stop ∷ []) }
        ensures { Written self.old self.new (shown (number pair 0) ++ stop ∷ []) }
    {
        self.entry(u16::from_le_bytes(pair));
        self.byte(stop);
    }

    // The entries of a row: a space behind each but the last, and behind that the end of the line.
    fn row(&mut self, row: &[u8])
        requires row { is_row row.now ≡ true }
        requires room { HasRoom self.old (row_line (entries_of row.now)) }
        ensures { Written self.old self.new (row_line (entries_of row.now)) }
    {
        let Some((last, front)) = pairs(row).split_last() else {
            return;
        };
        for pair in front {
            self.pair(*pair, b' ');
        }
        self.pair(*last, b'\n');
    }
}

// Writes the line of a row at the front of the space and answers how long it is.
// A refusal leaves the space as it was.
pub fn write_row_line(row: &[u8], space: &mut [u8]) -> Result<usize, BoxFault>
    ensures told { result ≡ row_line_told row.now space.old }
    ensures left { space.new ≡ row_line_left row.now space.old }
{
    if !is_row(row) {
        return Err(BoxFault::NotARow);
    }
    // no entry takes more than five bytes, so a long space need not be measured
    if space.len() < 5 * entry_count(row) && space.len() < line_count(row) {
        return Err(BoxFault::ShortSpace);
    }
    let mut line = Line { space, at: 0 };
    line.row(row);
    Ok(line.at)
}
