// Eight words of a hash: a hash value, or the working variables.
// Kept: eight fields and not an array: in Numbers (specs/Numbers.antt), which is this struct, the standard's steps are written.
#[derive(Clone, Copy)]
pub struct Words<W> {
    pub a: W,
    pub b: W,
    pub c: W,
    pub d: W,
    pub e: W,
    pub f: W,
    pub g: W,
    pub h: W,
}
