// The bits of a word, the lowest first.
ghost use Rattle.std.specs.Prelude.{◌≡◌, true, ◌<◌, MatchOption};
ghost use Rattle.std.specs.Iterator.{at_most};
ghost use Rattle.bits.specs.Bits.{bit, without_bit};

// The bits that are still to come.
#[derive(Drop)]
pub struct Members(pub u64);

impl Iterator for Members {
    type Item = u32;

    ghost next_gives = { λ s r t. MatchOption r (s.0 ≡ 0) (λ i. (i < 64) × (bit s.0 i ≡ true) × (t.0 ≡ without_bit s.0 i)) };

    ghost remaining = { λ s. at_most s.0 };

    fn next(&mut self) -> Option<u32> {
        if self.0 == 0 {
            return None;
        }
        let lowest = self.0.trailing_zeros();
        self.0 &= self.0 - 1;
        Some(lowest)
    }
}
