// AES-256 and AES-256-GCM. Above each function stand its kind and the words that it takes.
use crate::print;
use std::alloc::Global;
use std::io;
use std::io::Write;

// aes KEY BLOCK
pub fn aes<W: Write>(out: &mut W, key: &[u8], block: &[u8]) -> io::Result<()> {
    let Ok(key) = <&[u8; 32]>::try_from(key) else {
        return Ok(());
    };
    let Ok(block) = block.try_into() else {
        return Ok(());
    };
    print(out, &aes::encrypt(&aes::expand(key), block))
}

// seal KEY IV TEXT: the sealed text and the tag
pub fn seal<W: Write>(
    alloc: Global,
    out: &mut W,
    key: &[u8],
    iv: &[u8],
    text: &[u8],
) -> io::Result<()> {
    let mut sealed = vec![in alloc; 0; text.len()]?;
    let mut tag = [0u8; 16];
    primitives::prim_gcm_seal(key, iv, text, &mut sealed, &mut tag);
    print(out, &sealed)?;
    print(out, &tag)
}

// open KEY IV SEALED TAG: the call's answer, and the text, which is zeros where the tag is wrong
pub fn open<W: Write>(
    alloc: Global,
    out: &mut W,
    key: &[u8],
    iv: &[u8],
    sealed: &[u8],
    tag: &[u8],
) -> io::Result<()> {
    let mut text = vec![in alloc; 0; sealed.len()]?;
    let answer = primitives::prim_gcm_open(key, iv, sealed, tag, &mut text);
    write!(out, "{answer}")?;
    print(out, &text)
}
