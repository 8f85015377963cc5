// What a request brings besides its value.
ghost use Rattle.std.specs.Prelude.{◌≤◌, length};

use lines::Blocks;

#[derive(Clone, Copy)]
pub struct Brought<'a> {
    pub method: &'a [u8],
    pub lines: Blocks<'a>,
    pub path: &'a [u8],
    pub body: &'a [u8],
    pub ghost method_fits: { length method.now ≤ 16 },
    pub ghost path_fits: { length path.now ≤ 2048 },
    pub ghost body_fits: { length body.now ≤ 65536 },
}
