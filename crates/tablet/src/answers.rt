ghost use Rattle.std.specs.Prelude.{◌≡◌, MatchResult};
ghost use Rattle.tablet.specs.Answers.{layer_number, accepted, refused, counted};
ghost use Rattle.fault.specs.declared.kinds.Told.{Told};

use fault::kinds::{BoxFault, Layer, Told};

// What a call answers: all 0 where it accepts, else what the fault tells.
// The layers are numbered 1 (file), 2 (plan) and 3 (box): C is given plain numbers.
#[repr(C)]
#[derive(Clone, Copy)]
pub struct Answer {
    pub layer: u32,
    pub number: u32,
    pub place: u64,
}

// A count, and 0 where the answer is a refusal.
#[repr(C)]
#[derive(Clone, Copy)]
pub struct Counted {
    pub answer: Answer,
    pub count: u64,
}

fn layer_number(layer: Layer) -> u32
    ensures { result ≡ layer_number layer }
{
    match layer {
        Layer::File => 1,
        Layer::Plan => 2,
        Layer::Box => 3,
    }
}

impl From<Told> for Answer {
    ghost from_gives = { λ told r. r ≡ refused told };

    fn from(told: Told) -> Answer {
        Answer {
            layer: layer_number(told.layer),
            number: u32::from(told.number),
            place: told.place as u64,
        }
    }
}

// What a call answers that accepts.
const ACCEPTED: Answer = Answer {
    layer: 0,
    number: 0,
    place: 0,
};

impl<F: Into<Told>> From<Result<(), F>> for Answer {
    ghost from_gives = { λ res r. MatchResult res (λ _. r ≡ accepted) (λ e. (told : Told) × F.converts e told × (r ≡ refused told)) };

    fn from(res: Result<(), F>) -> Answer {
        match res {
            Ok(()) => ACCEPTED,
            Err(fault) => {
                let told: Told = fault.into();
                Answer::from(told)
            }
        }
    }
}

impl From<Result<u16, BoxFault>> for Counted {
    ghost from_gives = { λ told r. r ≡ counted told };

    fn from(told: Result<u16, BoxFault>) -> Counted {
        match told {
            Ok(count) => Counted {
                answer: ACCEPTED,
                count: u64::from(count),
            },
            Err(fault) => Counted {
                answer: Answer::from(Told::from(fault)),
                count: 0,
            },
        }
    }
}
