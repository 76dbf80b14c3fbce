ghost use Rattle.std.specs.Prelude.{◌≡◌, true, false, MatchResult};
ghost use Rattle.fault.specs.declared.kinds.BoxFault.TheVariants.{NotARow};
ghost use Rattle.row.specs.Laws.{ReadWritten};
ghost use Rattle.row.specs.Row.{is_row, entries_of};
ghost use Rattle.row.specs.View.{entries};

use crate::entries::Entries;
use crate::shape::{is_row, pairs};
use fault::kinds::BoxFault;

// The entries of a row; written back they are the same bytes.
pub fn read_row(bytes: &[u8]) -> Result<Entries, BoxFault>
    ensures value { MatchResult result (λ x. (is_row bytes.now ≡ true) × (entries x ≡ entries_of bytes.now)) (λ e. (is_row bytes.now ≡ false) × (e ≡ NotARow)) }
    ensures law { ReadWritten }
{
    if !is_row(bytes) {
        return Err(BoxFault::NotARow);
    }
    let mut list = Entries::new();
    for pair in pairs(bytes) {
        let _ = list.push(u16::from_le_bytes(*pair));
    }
    Ok(list)
}
