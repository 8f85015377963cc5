// At most N bytes, held by value.
ghost use Rattle.std.specs.Prelude.{◌≡◌, [], ◌≤◌, length, take};

#[derive(Clone, Copy)]
pub struct Run<const N: usize> {
    bytes: [u8; N],
    len: usize,
    ghost fits: { len ≤ N },
}

impl<const N: usize> Run<N> {
    pub fn new() -> Run<N>
        ensures { take result.len result.bytes ≡ [] }
    {
        Run {
            bytes: [0; N],
            len: 0,
        }
    }

    pub fn of(run: &[u8]) -> Run<N>
        requires { length run.now ≤ N }
        ensures { take result.len result.bytes ≡ run.now }
    {
        let mut bytes = [0; N];
        super::put_front(&mut bytes, run);
        Run {
            bytes,
            len: run.len(),
        }
    }

    pub fn len(&self) -> usize
        ensures { result ≡ length (take self.now.len self.now.bytes) }
    {
        self.len
    }

    pub fn as_slice(&self) -> &[u8]
        ensures { result.now ≡ take self.now.len self.now.bytes }
    {
        &self.bytes[..self.len]
    }
}
