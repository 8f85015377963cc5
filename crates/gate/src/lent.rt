// What a host lends to set up a session, each part of the right size.
ghost use Rattle.std.specs.Prelude.{◌≡◌, ◌≤◌, length};

#[derive(Clone, Copy)]
pub struct Lent<'a> {
    pub server_key: &'a [u8; 32],
    pub session_key: &'a [u8; 32],
    pub iv: &'a [u8; 12],
    pub session_id: &'a [u8],
    pub value: &'a [u8],
    // Said again, since a proof is told no length of an array behind a reference in a struct.
    pub ghost server_key_fits: { length server_key.now ≡ 32 },
    pub ghost session_key_fits: { length session_key.now ≡ 32 },
    pub ghost iv_fits: { length iv.now ≡ 12 },
    pub ghost some_id: { 1 ≤ length session_id.now },
    pub ghost id_fits: { length session_id.now ≤ 64 },
    pub ghost value_fits: { length value.now ≤ 4096 },
}
