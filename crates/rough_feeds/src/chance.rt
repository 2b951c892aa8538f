//! Draws by a stated generator.

/// A generator of 64 bits: each draw is the 31 highest of them.
#[derive(Drop)]
pub struct Chance {
    state: u64,
}

impl Chance {
    /// The generator from this seed on.
    pub fn new(seed: u64) -> Chance {
        Chance { state: seed }
    }

    /// The next draw.
    pub fn draw(&mut self) -> u32 {
        self.state = self
            .state
            .wrapping_mul(6364136223846793005)
            .wrapping_add(1442695040888963407);
        (self.state >> 33) as u32
    }
}
