ghost use Rattle.std.specs.Prelude.{◌≡◌, Ok, Err, MatchResult};
ghost use Rattle.filed.specs.Taken.{taken, Takes};
ghost use Rattle.file.specs.Contents.{layout_of};
ghost use Rattle.file.specs.Readings.{look};

use crate::filed::FiledPlan;
use fault::kinds::PlanFault;
use file::look::look_over;
use file::reading::contents;

// A file without components or point sections: its four counts.
static EMPTY: [u8; 8] = [0; 8];

fn accepted<'a>(bytes: &'a [u8]) -> &'a [u8]
    ensures { result.now ≡ taken bytes.now }
{
    match look_over(bytes) {
        Ok(()) => bytes,
        Err(_) => &EMPTY,
    }
}

impl<'a> TryFrom<&'a [u8]> for FiledPlan<'a> {
    type Error = PlanFault;

    ghost try_from_gives = { λ bytes r. MatchResult r (λ plan. (look bytes.now ≡ Ok tt) × (plan.contents.bytes.now ≡ bytes.now) × Takes bytes.now (layout_of plan.contents.bytes.now)) (λ e. look bytes.now ≡ Err e) };

    fn try_from(bytes: &'a [u8]) -> Result<FiledPlan<'a>, PlanFault> {
        look_over(bytes)?;
        let contents = contents(bytes);
        Ok(FiledPlan { contents })
    }
}

impl<'a> FiledPlan<'a> {
    // The plan of a file, or the plan without components where the look refuses the file.
    pub fn take(bytes: &'a [u8]) -> FiledPlan<'a>
        ensures bytes { result.contents.bytes.now ≡ taken bytes.now }
        ensures layout { Takes bytes.now (layout_of result.contents.bytes.now) }
    {
        let contents = contents(accepted(bytes));
        FiledPlan { contents }
    }
}
