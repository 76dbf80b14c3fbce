ghost use Rattle.std.specs.Prelude.{◌≡◌, ◌≤◌};
ghost use Rattle.file.specs.Contents.{signal_count, switch_count, straight_count, section_count, components};

// The bytes of a file and its four counts. Nothing is said of the rest of the bytes.
#[derive(Clone, Copy)]
pub struct Contents<'a> {
    pub bytes: &'a [u8],
    pub signals: u16,
    pub switches: u16,
    pub straights: u16,
    pub sections: u16,
    ghost signals_counted: { signals ≡ signal_count bytes.now },
    ghost switches_counted: { switches ≡ switch_count bytes.now },
    ghost straights_counted: { straights ≡ straight_count bytes.now },
    ghost sections_counted: { sections ≡ section_count bytes.now },
}

// A file that the first reading has passed: what the second builds on is that it has no more than 512 components.
#[derive(Clone, Copy)]
pub(crate) struct FirstRead<'a> {
    pub(crate) file: Contents<'a>,
    ghost few: { components file.bytes.now ≤ 512 },
}
