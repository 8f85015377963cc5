// A message to sign, and what a value of Signature-Input tells.
ghost use Rattle.std.specs.Prelude.{◌≤◌, length};

// Each component's value fits in a buffer of 16,384 bytes.
#[derive(Clone, Copy)]
pub struct Message<'a> {
    pub method: &'a [u8],
    pub authority: &'a [u8],
    pub path: &'a [u8],
    pub lines: &'a [u8],
    pub ghost short: { (length method.now ≤ 16384) × (length authority.now ≤ 16384) × (length path.now ≤ 16384) × (length lines.now ≤ 16384) },
}
