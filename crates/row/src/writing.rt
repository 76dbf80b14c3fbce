ghost use Rattle.std.specs.Prelude.{◌≡◌, ◌+◌, ◌≤◌, length};
ghost use Rattle.numbers.specs.Stored.{word};
ghost use Rattle.row.specs.Laws.{WrittenRead};
ghost use Rattle.row.specs.Put.{put};
ghost use Rattle.row.specs.Written.{row_told, row_left};

use crate::shape::are_entries;
use fault::kinds::BoxFault;

// A row has at most 512 entries of two bytes each behind its count.
pub const LONGEST_ROW: usize = 1_026;

// Writes a number as two bytes, the low byte first.
fn put_word(space: &mut [u8], at: usize, n: u16)
    requires { at + 2 ≤ length space.old }
    ensures { space.new ≡ put space.old at (word n) }
{
    let [low, high] = n.to_le_bytes();
    space[at] = low;
    space[at + 1] = high;
}

// Writes the bytes of the row at the front of the space and answers how many they are.
// A refusal leaves the space as it was; the bytes, read back, are the row.
pub fn write_row(row: &[u16], space: &mut [u8]) -> Result<usize, BoxFault>
    ensures told { result ≡ row_told row.now space.old }
    ensures left { space.new ≡ row_left row.now space.old }
    ensures law { WrittenRead }
{
    if !are_entries(row) {
        return Err(BoxFault::NotARow);
    }
    let size = 2 + 2 * row.len();
    if space.len() < size {
        return Err(BoxFault::ShortSpace);
    }
    put_word(space, 0, row.len() as u16);
    for (i, e) in row.iter().enumerate() {
        put_word(space, 2 + 2 * i, *e);
    }
    Ok(size)
}
