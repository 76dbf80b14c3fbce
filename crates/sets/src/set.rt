ghost use Rattle.std.specs.Prelude.{◌≡◌, length};

mod calls;

// A set of component numbers below 512: bit c % 64 of word c / 64 stands for c.
#[derive(Clone, Copy)]
pub struct ComponentSet {
    words: [u64; 8],
    ghost eight: { length words ≡ 8 },
}
