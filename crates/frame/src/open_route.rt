ghost use Rattle.std.specs.Prelude.{◌≡◌, []};
ghost use Rattle.row.specs.View.{entries};

use row::entries::Entries;

// A route that stands open, under the serial of its slip; or, by default, none.
#[derive(Clone, Copy)]
pub struct OpenRoute {
    pub(crate) serial: u16,
    pub(crate) row: Entries,
}

// What the frame's free places hold; no slip has the serial 0. Not derived, since `Entries` has ghost fields and no default.
impl Default for OpenRoute {
    ghost is_default = { λ r. (r.serial ≡ 0) × (entries r.row ≡ []) };

    fn default() -> OpenRoute {
        OpenRoute {
            serial: 0,
            row: Entries::new(),
        }
    }
}

impl OpenRoute {
    pub fn serial(&self) -> u16
        ensures { result ≡ self.now.serial }
    {
        self.serial
    }

    pub fn entries(&self) -> &[u16]
        ensures { result.now ≡ entries self.now.row }
    {
        self.row.as_slice()
    }
}
