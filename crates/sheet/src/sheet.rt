ghost use Rattle.std.specs.Prelude.{◌≡◌, ℕ, ◌<◌, ◌≤◌, true, length};
ghost use Rattle.sheet.specs.Records.{at, section_stands};

use crate::component::Component;

// The first `count` of the lent records are the components of the sheet; the space is the caller's, so no Vec keeps
// the count. That the lent space stays the same is about the sheet before and after a call, so each call that draws
// says it anew.
#[derive(Drop)]
pub struct Sheet<'a> {
    pub(crate) records: &'a mut [Component],
    pub(crate) count: u16,
    pub(crate) sections: u16,
    ghost fits: { count ≤ length records.now },
    ghost few: { count ≤ 512 },
    ghost small: { sections ≤ 512 },
    ghost known: { (k : ℕ) → k < count → section_stands (at records.now k) sections ≡ true },
}
