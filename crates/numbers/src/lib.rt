// Numbers as files and rows store them: two bytes each, the low byte first.
#![tactic(auto)]

ghost use Rattle.std.specs.Prelude.{◌≡◌, slice_index};
ghost use Rattle.numbers.specs.Stored.{number};

// The byte at `i`, or 0 past the end.
pub fn byte_at(bytes: &[u8], i: usize) -> u8
    ensures { result ≡ slice_index bytes.now i }
{
    bytes.get(i).copied().unwrap_or(0)
}

// The number whose two bytes begin at `i`; a byte past the end counts as 0.
pub fn number_at(bytes: &[u8], i: usize) -> u16
    ensures { result ≡ number bytes.now i }
{
    // Not by a pattern of a slice: in some places of a program a loop over many numbers takes far longer with one.
    let n = bytes.len();
    if n >= 2 && i <= n - 2 {
        return u16::from_le_bytes([bytes[i], bytes[i + 1]]);
    }
    u16::from(byte_at(bytes, i))
}
