// What both calls are lent.
ghost use Rattle.std.specs.Prelude.{◌≡◌, true};
ghost use Rattle.carrier.specs.Asked.{asked_of, asked_fits};

use signatures::Message;

// A message, and what is asked to be signed of it, under which label, key id and key: of the sizes that docs/CARRIER.md lists.
#[derive(Clone, Copy)]
pub struct Asked<'a> {
    pub message: Message<'a>,
    pub names: &'a [u8],
    pub label: &'a [u8],
    pub key_id: &'a [u8],
    pub key: &'a [u8],
    pub ghost fits: { asked_fits (asked_of message.method.now message.authority.now message.path.now message.lines.now names.now label.now key_id.now key.now) ≡ true },
}
