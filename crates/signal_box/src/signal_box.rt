use frame::frame::Frame;
use register::registers::Register;

mod asking;
mod frame_calls;
mod register_calls;

// The register holds the plan. That a refusal changes nothing is about the box before and after a call, so each call says
// it anew.
#[derive(Drop)]
pub struct SignalBox<P> {
    register: Register<P>,
    frame: Frame,
}
