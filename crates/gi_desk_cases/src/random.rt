//! Numbers that are drawn: the same ones of the same seed (xorshift64*).

#[derive(Drop)]
pub struct Random {
    state: u64,
}

impl Random {
    pub fn new(seed: u64) -> Random {
        Random {
            state: seed.wrapping_mul(0x9E37_79B9_7F4A_7C15) | 1,
        }
    }

    fn next(&mut self) -> u64 {
        self.state ^= self.state >> 12;
        self.state ^= self.state << 25;
        self.state ^= self.state >> 27;
        self.state.wrapping_mul(0x2545_F491_4F6C_DD1D) >> 32
    }

    /// A number below this one; 0 of none.
    pub fn below(&mut self, bound: u8) -> u8 {
        let drawn = self.next().checked_rem(u64::from(bound)).unwrap_or(0);
        u8::try_from(drawn).unwrap_or(0)
    }
}
