ghost use Rattle.std.specs.Prelude.{◌≡◌};

// What an opened route answers, and what closes it. A slip is linear: a program that lets one go is refused.
pub struct Slip {
    pub(crate) serial: u16,
}

impl Slip {
    pub fn serial(&self) -> u16
        ensures { result ≡ self.now.serial }
    {
        self.serial
    }
}
