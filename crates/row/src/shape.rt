ghost use Rattle.std.specs.Prelude.{◌≡◌, ◌+◌, ◌-◌, ◌*◌, ◌/◌, ◌<◌, length, map};
ghost use Rattle.numbers.specs.Stored.{number};
ghost use Rattle.row.specs.Row.{entry_ok, is_entries, is_row, numbers_from};

use numbers::number_at;

// Whether a row can hold the entry: a component below 512, and how a switch lies. By the number, since
// no position stands for what leaves 3, divided by 4.
fn is_entry(e: u16) -> bool
    ensures { result ≡ entry_ok e }
{
    e < 2048 && e % 4 < 3
}

// Whether a row can hold these entries.
pub fn are_entries(row: &[u16]) -> bool
    ensures { result ≡ is_entries row.now }
{
    if row.len() < 2 || row.len() > 512 {
        return false;
    }
    // no early return: the loop tests many entries at once
    let mut good = true;
    for e in row {
        good &= is_entry(*e);
    }
    good
}

// The count that the bytes begin with.
pub fn entry_count(bytes: &[u8]) -> usize
    ensures { result ≡ number bytes.now 0 }
{
    number_at(bytes, 0) as usize
}

// The entry `i`; a byte past the end counts as 0.
pub fn entry(bytes: &[u8], i: usize) -> u16
    ensures { result ≡ number bytes.now (2 + 2 * i) }
{
    // past the end, and so far perhaps that its place is no usize
    if i >= bytes.len() / 2 {
        return 0;
    }
    number_at(bytes, 2 + 2 * i)
}

// The numbers behind the count, as two bytes each; an odd byte at the end is none.
pub fn pairs(bytes: &[u8]) -> &[[u8; 2]]
    ensures count { length result.now ≡ (length bytes.now - 2) / 2 }
    ensures numbers { map (λ pair. number pair 0) result.now ≡ numbers_from bytes.now 2 ((length bytes.now - 2) / 2) }
{
    match bytes.get(2..) {
        Some(rest) => rest.as_chunks().0,
        None => &[],
    }
}

// Whether the bytes have the shape of a row.
pub fn is_row(bytes: &[u8]) -> bool
    ensures { result ≡ is_row bytes.now }
{
    let count = entry_count(bytes);
    if bytes.len() != 2 + 2 * count || count < 2 || count > 512 {
        return false;
    }
    // no early return, as above
    let mut good = true;
    for pair in pairs(bytes) {
        good &= is_entry(u16::from_le_bytes(*pair));
    }
    good
}
