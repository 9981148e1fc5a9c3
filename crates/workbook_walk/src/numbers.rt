ghost use Rattle.std.specs.Prelude.{◌<◌};

/// Numbers that look random, the same in each run.
#[derive(Drop)]
pub(crate) struct Numbers {
    pub(crate) state: u64,
}

impl Numbers {
    /// The next number below another one.
    pub(crate) fn below(&mut self, end: u32) -> u32
        requires { 0 < end }
        ensures { result < end }
    {
        let next = self
            .state
            .wrapping_mul(6_364_136_223_846_793_005)
            .wrapping_add(1_442_695_040_888_963_407);
        self.state = next;
        (next >> 33) as u32 % end
    }

    /// Whether the next number is 0, which one of so many is.
    pub(crate) fn is_one_of(&mut self, count: u32) -> bool
        requires { 0 < count }
    {
        self.below(count) == 0
    }
}
