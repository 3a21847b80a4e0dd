// Many bytes of an image written at once.
ghost use Rattle.std.specs.Prelude.{◌≡◌, ◌+◌, ◌*◌, ◌%◌, ◌<◌, length};
ghost use Rattle.bits.specs.Zeros.{zeroed, spaced, with_bits, chosen};

use crate::Word;

// `count` bytes: the one at `at`, and each `step` further. A helper for the units above: they know that the last is in the image. By
// place, since a step may be 0, which `step_by` refuses.
pub fn clear_each(image: &mut [u8], at: usize, step: usize, count: usize)
    requires { at + step * count < length image.old + step }
    ensures { image.new ≡ zeroed (spaced at step count) image.old }
{
    for j in 0..count {
        image[at + step * j] = 0;
    }
}

// Bit b of a byte for each bit i of `set`: of the one at `at`, and of the one `step` further for each i. A helper for the units above:
// they know that the last is in the image.
pub fn set_each(image: &mut [u8], at: usize, step: usize, set: u64, b: u32)
    requires { at + step * 63 < length image.old }
    ensures { image.new ≡ with_bits (chosen at step set) (b % 8) image.old }
{
    for i in 0..64 {
        let byte = &mut image[at + step * i as usize];
        *byte = byte.with_if(b, set.has(i));
    }
}
