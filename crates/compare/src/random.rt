//! The generator of the cases: xorshift on 64 bits.

ghost use Rattle.std.specs.Prelude.{◌<◌};

/// A generator of numbers that depend on its seed alone.
#[derive(Drop)]
pub struct Random {
    state: u64,
}

impl Random {
    /// A generator from a number, which is made odd, since the state 0 would give nothing but 0.
    pub(crate) fn new(seed: u64) -> Random {
        Random { state: seed | 1 }
    }

    // The next 64 bits.
    fn next(&mut self) -> u64 {
        let mut x = self.state;
        x ^= x << 13;
        x ^= x >> 7;
        x ^= x << 17;
        self.state = x;
        x
    }

    /// A number below `end`, of the upper bits.
    pub(crate) fn below(&mut self, end: usize) -> usize
        requires { 0 < end }
        ensures { result < end }
    {
        (self.next() >> 32) as usize % end
    }

    /// One octet.
    pub(crate) fn octet(&mut self) -> u8 {
        (self.next() >> 56) as u8
    }
}
