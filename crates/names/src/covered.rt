// Which header fields orders cover.
ghost use Rattle.std.specs.Prelude.{◌≡◌, true};
ghost use Rattle.names.specs.Extra.{good_extra};

// Those of the mask's bits, and the extra ones.
#[derive(Clone, Copy)]
pub struct Covered<'a> {
    pub mask: u64,
    pub extra: &'a [u8],
    pub ghost good: { good_extra extra.now ≡ true },
}
