// What comes back with a message.
ghost use Rattle.std.specs.Prelude.{◌≤◌, length};

// The values of Signature-Input and Signature.
#[derive(Clone, Copy)]
pub struct Values<'a> {
    pub input: &'a [u8],
    pub signature: &'a [u8],
    pub ghost input_fits: { length input.now ≤ 4096 },
    pub ghost signature_fits: { length signature.now ≤ 4096 },
}
