ghost use Rattle.std.specs.Prelude.{◌≡◌, ℕ, ◌-◌, ◌<◌, ◌≤◌, true, false, ◌&&◌, [], ◌∷◌, ◌++◌, length, MatchOption, nat_lt, slice_index};
ghost use Rattle.row.specs.View.{entries};

use super::Entries;

impl Entries {
    pub fn new() -> Entries
        ensures { entries result ≡ [] }
    {
        Entries {
            cells: [0; 512],
            len: 0,
        }
    }

    pub fn as_slice(&self) -> &[u16]
        ensures value { result.now ≡ entries self.now }
        ensures short { length result.now ≤ 512 }
        ensures small { (k : ℕ) → k < length result.now → slice_index result.now k < 2048 }
    {
        &self.cells[0..self.len]
    }

    pub fn len(&self) -> usize
        ensures value { result ≡ length (entries self.now) }
        ensures short { result ≤ 512 }
    {
        self.as_slice().len()
    }

    // Whether there was room and the entry is below 2,048; if not, the list stays as it was. As with the `insert` of a
    // `HashSet`, a bool says all: an entry that is not taken in is still the caller's.
    pub fn push(&mut self, e: u16) -> bool
        ensures fits { result ≡ (nat_lt (length (entries self.old)) 512 && nat_lt e 2048) }
        ensures same { result ≡ false → self.new ≡ self.old }
        ensures grown { result ≡ true → entries self.new ≡ entries self.old ++ e ∷ [] }
    {
        if self.len >= 512 || e >= 2048 {
            return false;
        }
        self.cells[self.len] = e;
        self.len += 1;
        true
    }

    // Takes the last entry off.
    pub fn pop(&mut self) -> Option<u16>
        ensures { MatchOption result ((entries self.old ≡ []) × (self.new ≡ self.old)) (λ e. entries self.old ≡ entries self.new ++ e ∷ []) }
    {
        let last = self.last()?;
        self.len -= 1;
        Some(last)
    }

    pub fn last(&self) -> Option<u16>
        ensures { MatchOption result (length (entries self.now) ≡ 0) (λ e. (0 < length (entries self.now)) × (e ≡ slice_index (entries self.now) (length (entries self.now) - 1))) }
    {
        self.as_slice().last().copied()
    }
}
