// The header lines of a request.
ghost use Rattle.std.specs.Prelude.{◌≤◌, length};

// Those of the head, and those set aside.
#[derive(Clone, Copy)]
pub struct Blocks<'a> {
    pub head: &'a [u8],
    pub aside: &'a [u8],
    pub ghost head_fits: { length head.now ≤ 16384 },
    pub ghost aside_fits: { length aside.now ≤ 16384 },
}
