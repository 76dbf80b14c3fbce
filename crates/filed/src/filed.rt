ghost use Rattle.std.specs.Prelude.{◌≡◌, true};
ghost use Rattle.file.specs.FileOf.{accepts};

use file::contents::Contents;

// The bytes of a file that the look accepts.
#[derive(Clone, Copy)]
pub struct FiledPlan<'a> {
    pub(crate) contents: Contents<'a>,
    ghost accepted: { accepts contents.bytes.now ≡ true },
}
