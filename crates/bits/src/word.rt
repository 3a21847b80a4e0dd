// The bits of a number of at most 64. An index counts within the number, whatever its size (`i % WIDTH`), so each method takes any:
// a caller with i below the width loses nothing, and one that counts bits through a whole image need not reduce its index first.
ghost use Rattle.std.specs.Prelude.{◌≡◌, cond, ℕ, ◌%◌, ◌^◌, ◌<◌, ◌≤◌};
ghost use Rattle.bits.specs.Bits.{bit, with_bit, without_bit};
ghost use Rattle.std.proofs.Common.{rules};

pub trait Word: Copy {
    const WIDTH: u32;

    ghost WIDTH: { ℕ };

    ghost value: { Self → ℕ };

    // The number as one of 64 bits, and back.
    fn widen(self) -> u64
        ensures { (result ≡ value self) × (result < 2 ^ WIDTH) };

    fn narrow(w: u64) -> Self
        ensures { w < 2 ^ WIDTH → value result ≡ w };

    fn has(self, i: u32) -> bool
        ensures { result ≡ bit (value self) (i % WIDTH) }
    {
        (self.widen() >> (i % Self::WIDTH)) & 1 == 1
    }

    fn with(self, i: u32) -> Self
        ensures { value result ≡ with_bit (value self) (i % WIDTH) }
    {
        Self::narrow(self.widen() | (1 << (i % Self::WIDTH)))
    }

    // The number, with bit i too where it is to be set.
    fn with_if(self, i: u32, set: bool) -> Self
        ensures { value result ≡ cond set (with_bit (value self) (i % WIDTH)) (value self) }
    {
        if set { self.with(i) } else { self }
    }

    fn without(self, i: u32) -> Self
        ensures { value result ≡ without_bit (value self) (i % WIDTH) }
    {
        Self::narrow(self.widen() & !(1 << (i % Self::WIDTH)))
    }

    // A shift by an index within the number is one of a `u64`.
    ghost some: { 0 < WIDTH };

    ghost fits: { WIDTH ≤ 64 };
}

impl Word for u8 {
    const WIDTH: u32 = 8;

    ghost WIDTH = { 8 };

    ghost value = { λ w. w };

    fn widen(self) -> u64 {
        u64::from(self)
    }

    fn narrow(w: u64) -> u8 {
        (w & 0xff) as u8
    }

    ghost some = { Prim.search rules };

    ghost fits = { Prim.search rules };
}

impl Word for u64 {
    const WIDTH: u32 = 64;

    ghost WIDTH = { 64 };

    ghost value = { λ w. w };

    fn widen(self) -> u64 {
        self
    }

    fn narrow(w: u64) -> u64 {
        w
    }

    ghost some = { Prim.search rules };

    ghost fits = { Prim.search rules };
}
