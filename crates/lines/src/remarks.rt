// Notes on the covered names. A note is 0 where no line of a block bears the name; otherwise 1 more than where the first that does starts, and
// 32768 more if others do too.
ghost use Rattle.std.specs.Prelude.{◌≡◌, ◌≤◌, replicate};

// Those of either block, as many as names are covered, in their order.
// Kept: a note is a number, since an enum of the three takes twice the bytes of the stack, on which gate has a bound.
#[derive(Clone, Copy)]
pub struct Notes {
    pub head: [u16; 64],
    pub aside: [u16; 64],
    pub count: usize,
    pub ghost few: { count ≤ 64 },
}

impl Notes {
    // No notes, on no names.
    pub fn new() -> Notes
        ensures { (result.head ≡ replicate 64 0) × (result.aside ≡ replicate 64 0) × (result.count ≡ 0) }
    {
        Notes {
            head: [0; 64],
            aside: [0; 64],
            count: 0,
        }
    }
}
