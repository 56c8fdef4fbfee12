/// Numbers without a pattern, the same ones each time (xorshift: Marsaglia 2003).
#[derive(Clone, Copy, Debug)]
pub struct Random {
    state: u64,
}

impl Random {
    pub fn new() -> Random {
        Random {
            state: 0x9E37_79B9_7F4A_7C15,
        }
    }

    fn next(&mut self) -> u64 {
        let mut x = self.state;
        x ^= x << 13;
        x ^= x >> 7;
        x ^= x << 17;
        self.state = x;
        x >> 11
    }

    /// A number below this one; 0 where none is.
    pub fn below(&mut self, n: u64) -> u64 {
        let x = self.next();
        if n == 0 { 0 } else { x % n }
    }
}
