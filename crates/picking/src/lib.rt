// The carrying loans of an item and right, picked out of a loans image in two runs, before a search begins.

#![tactic(auto)]

ghost use Rattle.std.specs.Prelude.{◌≡◌, true, ◌++◌, ◌+◌, ◌*◌, ◌%◌, ◌≤◌, ◌<◌, length, take};
ghost use Rattle.bits.specs.Sets.{keep};
ghost use Rattle.delegation.specs.Loans.{key_of, rising, count_of};
ghost use Rattle.delegation.specs.Picking.{picks, picked};
ghost use Rattle.picking.specs.Runs.{of_key, Appended};
ghost use Rattle.picking.specs.Room.{Pickable};

use delegation::loan::Header;
use delegation::{halving, loan};
use model::{Item, Right, Shift};

// How many loans are passed over at once.
const BLOCK: usize = 16;

// How many of the loans are of the key. A sum of 32 bits, for four of them fit a vector: `filter` and `count`, whose count has 64, take
// twice the time of 16 loans.
fn count_of(loans: &[u32; BLOCK], key: u32) -> u32
    ensures { result ≡ length (keep (of_key key) loans.now) }
{
    loans
        .iter()
        .map(|w| u32::from(loan::key_of(*w) == key))
        .sum()
}

// Puts the loans behind the `m` picked before. Word by word: the library does without memcpy, which `copy_from_slice` calls.
fn copy(out: &mut [u32], loans: &[u32; BLOCK], m: usize)
    requires { m + length loans.now ≤ length out.old }
    ensures { take (m + length loans.now) out.new ≡ take m out.old ++ loans.now }
{
    for (i, w) in loans.iter().enumerate() {
        out[m + i] = *w;
    }
}

// Puts the loans of the key behind the `m` picked before. Each loan is written, and the next one overwrites it where it does not count.
fn pick_part(out: &mut [u32], loans: &[u32], m: usize, key: u32) -> usize
    requires { m + length loans.now ≤ length out.old }
    ensures { Appended out.old m loans.now key result out.new }
{
    let mut m = m;
    for w in loans {
        out[m] = *w;
        m += usize::from(loan::key_of(*w) == key);
    }
    m
}

// The same. Where no loan is of the key, or each is, a count of all at once tells so, and they are passed over or copied as they are.
fn pick_block(out: &mut [u32], loans: &[u32; BLOCK], m: usize, key: u32) -> usize
    requires { m + length loans.now ≤ length out.old }
    ensures { Appended out.old m loans.now key result out.new }
{
    let n = count_of(loans, key) as usize;
    if n == 0 {
        return m;
    }
    if n < BLOCK {
        return pick_part(out, loans, m, key);
    }
    copy(out, loans, m);
    m + BLOCK
}

// The same for many loans, 16 at a time.
fn pick_run(out: &mut [u32], loans: &[u32], m: usize, key: u32) -> usize
    requires { m + length loans.now ≤ length out.old }
    ensures { Appended out.old m loans.now key result out.new }
{
    let (blocks, rest) = loans.as_chunks::<BLOCK>();
    let mut m = m;
    for block in blocks {
        m = pick_block(out, block, m, key);
    }
    pick_part(out, rest, m, key)
}

// The loans of the key that carry at that shift, in their order, to the front of `out`, and their number. Of rising loans the open-ended
// come first, then those that are past, then the others that carry: so two runs have all.
fn carrying(out: &mut [u32], loans: &[u32], key: u32, shift: Shift) -> usize
    requires { (length loans.now ≤ length out.old) × (rising loans.now ≡ true) × (shift.0 ≤ 255) }
    ensures { (result ≤ length loans.now)
        × (take result out.new ≡ keep (picks shift.0 key) loans.now) }
{
    let dated = halving::below(loans, loan::DATED);
    let current = halving::below(loans, loan::least(shift));
    let from = dated.max(current);
    let m = pick_run(out, &loans[..dated], 0, key);
    pick_run(out, &loans[from..], m, key)
}

// The carrying loans of that item and right, each once and rising, to the front of `out`, and their number: memory is fixed, so the
// caller lends the buffer, and what is in it is told by a number. A helper for the unit,
// which has judged the image and read the arguments: so it refuses nothing, and requires what they were judged for.
pub fn pick(out: &mut [u32], loans: &[u32], on: Item, right: Right) -> usize
    requires { Pickable loans.now on.0 right.0 (length out.old) }
    ensures { (result ≤ count_of loans.now)
        × (take result out.new ≡ picked loans.now (8 * on.0 + right.0)) }
{
    let header = Header::of(loans);
    let end = usize::from(header.count) + 1;
    let key = loan::key(on, right);
    let shift = header.present();
    carrying(out, &loans[1..end], key, shift)
}
