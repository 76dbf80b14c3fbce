ghost use Rattle.std.specs.Prelude.{◌≡◌, ◌+◌, ◌≤◌, length};
ghost use Rattle.row.specs.Put.{text_told, text_left};
ghost use Rattle.lines.specs.Closing.{closing_line};
ghost use Rattle.lines.specs.Written.{HasRoom, Written};

use crate::digits::digit_count;
use crate::line::Line;
use fault::kinds::BoxFault;

// What the last line tells: the end of the rows and how many there were; that so many are out and a route remains;
// or a refusal, by its number and its place.
#[derive(Clone, Copy, Debug, PartialEq, Eq)]
pub enum Closing {
    End(usize),
    Full(usize),
    Refused(u8, usize),
}

impl Closing {
    // How long the line is: its word and spaces, its numbers, and its end.
    fn size(self) -> usize
        ensures { result ≡ length (closing_line self) }
    {
        match self {
            Closing::End(count) => 5 + digit_count(count),
            Closing::Full(count) => 6 + digit_count(count),
            Closing::Refused(number, place) => {
                10 + digit_count(usize::from(number)) + digit_count(place)
            }
        }
    }

    // Writes the line where there is room for it.
    fn put(self, line: &mut Line<'_>)
        requires { HasRoom line.old (closing_line self) }
        ensures { Written line.old line.new (closing_line self) }
    {
        match self {
            Closing::End(count) => line.counted(b"end ", count),
            Closing::Full(count) => line.counted(b"full ", count),
            Closing::Refused(number, place) => {
                line.text(b"refused ");
                line.number(usize::from(number));
                line.counted(b" ", place);
            }
        }
    }

    // Writes the line at the front of the space and answers how long it is.
    // A refusal leaves the space as it was.
    pub fn write(self, space: &mut [u8]) -> Result<usize, BoxFault>
        ensures told { result ≡ text_told (closing_line self) space.old }
        ensures left { space.new ≡ text_left (closing_line self) space.old }
    {
        let size = self.size();
        if space.len() < size {
            return Err(BoxFault::ShortSpace);
        }
        let mut line = Line { space, at: 0 };
        self.put(&mut line);
        Ok(size)
    }
}
