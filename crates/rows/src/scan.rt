// Scans of whole rows: whether they are in order, and who holds a right. No branch and no exit within a row.
ghost use Rattle.std.specs.Prelude.{◌≡◌, not, ◌+◌, ◌*◌, ◌<◌, eqb, length, get_or};
ghost use Rattle.bits.specs.Sets.{all_below};
ghost use Rattle.layouts.specs.Layouts.{rows};
ghost use Rattle.layouts.specs.Subjects.{subjects_of, is_subject};
ghost use Rattle.layouts.specs.Live.{masks_of};
ghost use Rattle.bits.specs.Bits.{or_below};
ghost use Rattle.layouts.specs.Order.{block_ok, items_ok, persons_ok};

use crate::Rows;
use bits::Word;
use layouts::live;

// Whether the rows of the eight persons from 8 * k on have rights on living items only.
fn items_live(image: &[u8; Rows::BYTES], k: usize, masks: &[u8; 64]) -> bool
    requires { (k < 8) × (masks.now ≡ masks_of image.now) }
    ensures { result ≡ all_below 8 (λ j. items_ok rows image.now 512 (8 * k + j)) }
{
    let at = 8 + 512 * k;
    live::hides(&image[at..at + 512], 0, masks)
}

// Whether the person lives, or has no right.
fn person_ok(image: &[u8; Rows::BYTES], who: usize, masks: &[u8; 64]) -> bool
    requires { (who < 64) × (masks.now ≡ masks_of image.now) }
    ensures { result ≡ persons_ok rows image.now 512 who }
{
    masks[who] == 0 || !holds_any(image, who)
}

// Whether the rows name living items only, in two passes: items eight rows at a time, then the rows of dead persons.
pub(crate) fn rows_ok(image: &[u8; Rows::BYTES]) -> bool
    ensures { result ≡ all_below 64 (block_ok rows image.now 512) }
{
    let masks = live::masks(image);
    (0..8).all(|k| items_live(image, k, &masks)) && (0..64).all(|who| person_ok(image, who, &masks))
}

// Whether a row has a right. Inlined, as `holds_any` is: a call takes as long as the row itself, and a fresh image has 63 dead persons.
#[inline(always)]
fn has_right(row: &[u8]) -> bool
    ensures { result ≡ not (eqb (or_below (length row.now) (λ i. get_or row.now i 0)) 0) }
{
    let mut bits: u8 = 0;
    for byte in row {
        bits |= *byte;
    }
    bits != 0
}

// Whether the person has a right.
#[inline(always)]
fn holds_any(image: &[u8; Rows::BYTES], who: usize) -> bool
    requires { who < 64 }
    ensures { result ≡ is_subject rows image.now who }
{
    let at = 8 + 64 * who;
    has_right(&image[at..at + 64])
}

// The persons with a right, bit p for person p.
pub(crate) fn subjects(image: &[u8; Rows::BYTES]) -> u64
    ensures { result ≡ subjects_of rows image.now }
{
    let mut set: u64 = 0;
    for who in 0..64u32 {
        set = set.with_if(who, holds_any(image, who as usize));
    }
    set
}
