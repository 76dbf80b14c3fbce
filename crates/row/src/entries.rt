ghost use Rattle.std.specs.Prelude.{◌≡◌, ℕ, ◌<◌, ◌≤◌, length, slice_index};

mod calls;

// A list of at most 512 entries, each below 2,048: the first `len` cells hold it. An array with a length, since the
// library allocates nothing, and callers may copy a list, which an `ArrayVec` does not allow.
#[derive(Clone, Copy)]
pub struct Entries {
    cells: [u16; 512],
    len: usize,
    ghost within: { len ≤ 512 },
    ghost whole: { length cells ≡ 512 },
    ghost small: { (k : ℕ) → k < len → slice_index cells k < 2048 },
}
