// The parts of a value of Signature-Input: the label, the names of the list joined by commas, the time and the key id.
#[derive(Clone, Copy)]
pub struct Input<'a> {
    pub label: &'a [u8],
    pub names: &'a [u8],
    pub created: u64,
    pub key_id: &'a [u8],
}
