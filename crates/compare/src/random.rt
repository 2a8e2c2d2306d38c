// A seeded generator of numbers: the same seed gives the same studies on every machine.

#[derive(Clone, Copy)]
pub(crate) struct Random {
    pub state: u64,
}

impl Random {
    // The next number.
    fn next(&mut self) -> u64 {
        self.state = self
            .state
            .wrapping_mul(6_364_136_223_846_793_005)
            .wrapping_add(1_442_695_040_888_963_407);
        self.state >> 33
    }

    // A number below `end`, or 0 where `end` is 0.
    pub(crate) fn below(&mut self, end: u8) -> u8 {
        if end == 0 {
            return 0;
        }
        (self.next() % u64::from(end)) as u8
    }

    // Whether a draw of `part` in ten succeeds.
    pub(crate) fn in_ten(&mut self, part: u8) -> bool {
        self.below(10) < part
    }
}
