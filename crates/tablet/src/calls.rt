ghost use Rattle.std.specs.Prelude.{◌≡◌, true};
ghost use Rattle.file.specs.Contents.{layout_of};
ghost use Rattle.file.specs.Readings.{look};
ghost use Rattle.filed.specs.Taken.{taken};
ghost use Rattle.judging.specs.Shared.{told_shared};
ghost use Rattle.row.specs.Row.{is_row, entries_of};
ghost use Rattle.route.specs.Paths.{Route};
ghost use Rattle.tablet.specs.Answers.{accepted, looked, counted};
ghost use Rattle.tablet.specs.Calls.{AcceptsExactly, Judges};

use crate::answers::{Answer, Counted};
use file::look::look_over;
use filed::filed::FiledPlan;
use judging::judgement::judge;
use judging::shared::shared;

// The first fault of a file, if it has one.
#[unsafe(no_mangle)]
pub extern "C" fn tablet_look(file: &[u8]) -> Answer
    ensures first { result ≡ looked (look file.now) }
    ensures accepted { AcceptsExactly file.now result }
{
    Answer::from(look_over(file))
}

// Accepts the row exactly where it is a route of the plan in the file. A file that the look refuses has no components.
#[unsafe(no_mangle)]
pub extern "C" fn tablet_judge(file: &[u8], row: &[u8]) -> Answer
    ensures judged { Judges (layout_of (taken file.now)) row.now result }
    ensures routes { is_row row.now ≡ true → Route (layout_of (taken file.now)) (entries_of row.now) → result ≡ accepted }
{
    let plan = FiledPlan::take(file);
    Answer::from(judge(&plan, row))
}

// How many components both rows have, each counted once.
#[unsafe(no_mangle)]
pub extern "C" fn tablet_shared(a: &[u8], b: &[u8]) -> Counted
    ensures { result ≡ counted (told_shared a.now b.now) }
{
    Counted::from(shared(a, b))
}
