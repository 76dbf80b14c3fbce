ghost use Rattle.std.specs.Prelude.{◌≡◌, ℕ, ◌+◌, ◌*◌, ◌<◌, ◌≤◌, MatchOption, ◌==◌, ◌≢◌};
ghost use Rattle.sets.specs.Members.{has, joined, left, in_both};

use super::ComponentSet;

impl ComponentSet {
    // The empty set.
    pub fn new() -> ComponentSet
        ensures { (c : ℕ) → has result c ≡ 0 }
    {
        ComponentSet { words: [0; 8] }
    }

    pub fn contains(&self, component: u16) -> bool
        ensures { result ≡ (has self.now component == 1) }
    {
        if component >= 512 {
            return false;
        }
        let word = self.words[component as usize / 64];
        (word >> (component % 64)) & 1 == 1
    }

    // Takes in a component; a number from 512 on is none.
    pub fn insert(&mut self, component: u16)
        ensures { (c : ℕ) → has self.new c ≡ joined self.old component c }
    {
        if component < 512 && !self.contains(component) {
            self.flip(component);
        }
    }

    pub fn remove(&mut self, component: u16)
        ensures { (c : ℕ) → has self.new c ≡ left self.old component c }
    {
        if component < 512 && self.contains(component) {
            self.flip(component);
        }
    }

    // The least component of the set, or none where it is empty.
    pub fn first(&self) -> Option<u16>
        ensures { MatchOption result ((c : ℕ) → has self.now c ≡ 0) (λ c. (c < 512) × (has self.now c ≡ 1) × ((k : ℕ) → k < c → has self.now k ≡ 0)) }
    {
        for (i, word) in self.words.iter().enumerate() {
            if *word != 0 {
                return Some(64 * i as u16 + word.trailing_zeros() as u16);
            }
        }
        None
    }

    // How many components are in both sets.
    pub fn common(&self, other: &ComponentSet) -> u16
        ensures { result ≡ in_both self.now other.now }
    {
        // a loop: of `map` and `sum` the proof did not close, since it wants the bound of each word
        let mut count = 0;
        for (word, others) in self.words.iter().zip(&other.words) {
            count += (word & others).count_ones() as u16;
        }
        count
    }

    fn flip(&mut self, component: u16)
        requires { component < 512 }
        ensures here { has self.new component + has self.old component ≡ 1 }
        ensures others { (c : ℕ) → (c ≢ component) → has self.new c ≡ has self.old c }
    {
        let i = component as usize / 64;
        let word = self.words[i];
        self.words[i] = word ^ (1u64 << (component % 64));
    }
}
