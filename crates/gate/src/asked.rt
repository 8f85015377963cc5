// What a request brings, its value among it, each part of a size that it may have.
ghost use Rattle.std.specs.Prelude.{◌≤◌, length};

use signed::Brought;

#[derive(Clone, Copy)]
pub struct Asked<'a> {
    pub value: &'a [u8],
    pub brought: Brought<'a>,
    pub ghost value_fits: { length value.now ≤ 4096 },
    pub ghost some_method: { 1 ≤ length brought.method.now },
    pub ghost some_path: { 1 ≤ length brought.path.now },
}
