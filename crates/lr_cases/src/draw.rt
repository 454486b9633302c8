//! Numbers that look drawn, from a linear congruence modulo 2^64.
ghost use Rattle.std.specs.Prelude.{◌<◌};

/// Numbers that are drawn by a linear congruence modulo 2^64.
#[derive(Clone, Copy)]
pub struct Draw {
    state: u64,
}

impl Draw {
    /// The generator that starts with this state.
    pub fn new(state: u64) -> Self {
        Draw { state }
    }

    /// The eight highest bits of the next state.
    pub fn byte(&mut self) -> u8 {
        self.state = self
            .state
            .wrapping_mul(6_364_136_223_846_793_005)
            .wrapping_add(1_442_695_040_888_963_407);
        (self.state >> 56) as u8
    }

    /// A number below `count`, from the next two bytes.
    pub fn below(&mut self, count: u32) -> u32
        requires { 0 < count }
        ensures { result < count }
    {
        let high = u32::from(self.byte());
        let low = u32::from(self.byte());
        (high * 256 + low) % count
    }
}
