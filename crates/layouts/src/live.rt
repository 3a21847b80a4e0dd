// The live set of an image of bytes: bytes 0 to 7, least first. Rows and the grants of a chain unit begin with it.
ghost use Rattle.std.specs.Prelude.{◌≡◌, cond, ◌+◌, ◌*◌, ◌/◌, ◌%◌, ◌≤◌, ◌<◌, eqb, length, get_or, set};
ghost use Rattle.std.specs.Int.Bits.{bit_and, bit_or};
ghost use Rattle.model.specs.Commands.{members_of};
ghost use Rattle.bits.specs.Sets.{all, tabulate, all_below};
ghost use Rattle.bits.specs.Bits.{with_bit, without_bit, of_bits};
ghost use Rattle.bits.specs.Cells.{at};
ghost use Rattle.layouts.specs.Live.{masks_of};

use bits::Word;
use model::{Item, ItemSet};
use std::array;

// Byte k of the image; 0 where the buffer ends before.
fn byte_at(image: &[u8], k: usize) -> u8
    ensures { result ≡ get_or image.now k 0 }
{
    image.get(k).copied().unwrap_or(0)
}

// Whether the item lives; none does where the buffer ends before its bit.
pub fn is_live(image: &[u8], item: Item) -> bool
    ensures { result ≡ at 8 image.now item.0 }
{
    let i = item.number();
    byte_at(image, (i / 8) as usize).has(i)
}

// The byte with the item's bit, changed by f. A buffer that ends before it stays as it is.
fn change<F: FnOnce(u8, u32) -> u8>(image: &mut [u8], item: Item, f: F)
    requires { F.IsAlwaysCallable f }
    ensures within { item.0 / 8 < length image.old
        → (y : _) × F.post f (get_or image.old (item.0 / 8) 0) item.0 y × (image.new ≡ set image.old (item.0 / 8) y) }
    ensures beyond { length image.old ≤ item.0 / 8 → image.new ≡ image.old }
{
    let i = item.number();
    let k = (i / 8) as usize;
    if k < image.len() {
        image[k] = f(image[k], i);
    }
}

// The item into the live set, and out of it. A buffer that ends before the item's bit stays as it is.
pub fn insert(image: &mut [u8], item: Item)
    ensures { image.new ≡ set image.old (item.0 / 8)
        (with_bit (get_or image.old (item.0 / 8) 0) (item.0 % 8)) }
{
    change(image, item, |byte, i| byte.with(i));
}

pub fn remove(image: &mut [u8], item: Item)
    ensures { image.new ≡ set image.old (item.0 / 8)
        (without_bit (get_or image.old (item.0 / 8) 0) (item.0 % 8)) }
{
    change(image, item, |byte, i| byte.without(i));
}

// The bytes of the live set; 0 where the buffer ends before.
fn live_bytes(image: &[u8]) -> [u8; 8]
    ensures { result ≡ tabulate 8 (λ k. get_or image.now k 0) }
{
    array::from_fn(|k| byte_at(image, k))
}

// The live set as a number: items whose bits the buffer does not have are dead.
fn live_set(image: &[u8]) -> u64
    ensures { result ≡ of_bits 64 (at 8 image.now) }
{
    u64::from_le_bytes(live_bytes(image))
}

// Whether every member of the set lives; none does where the buffer ends before its bit. Most commands have no set, so the empty one is
// told first.
pub fn are_live(image: &[u8], set: ItemSet) -> bool
    ensures { result ≡ all (at 8 image.now) (members_of set.0) }
{
    set.is_empty() || set.number() & !live_set(image) == 0
}

fn mask_of(live: bool) -> u8
    ensures { result ≡ cond live 0 255 }
{
    if live { 0 } else { 255 }
}

// For each item a mask that shows all of a byte where the item is dead, and nothing where it lives.
pub fn masks(image: &[u8]) -> [u8; 64]
    ensures { result ≡ masks_of image.now }
{
    let live = live_bytes(image);
    array::from_fn(|i| mask_of(live[i / 8].has(i as u32)))
}

// Whether the masks show nothing of eight rows of 64 bytes: `all` masks every byte, masks[p] byte p of each row. No exit within.
// A helper for the units above: they lend a part of 512 bytes.
pub fn hides(block: &[u8], all: u8, masks: &[u8; 64]) -> bool
    requires { length block.now ≡ 512 }
    ensures { result ≡ all_below 64
        (λ p. all_below 8 (λ i. eqb (bit_and (get_or block.now (p + 64 * i) 0) (bit_or all (get_or masks.now p 0))) 0)) }
{
    let mut bits = 0;
    for p in 0..64 {
        let x = (0..8).fold(0, |x, i| x | block[p + 64 * i]);
        bits |= x & (all | masks[p]);
    }
    bits == 0
}
