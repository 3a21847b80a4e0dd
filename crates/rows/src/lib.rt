// The rows unit: capability rows. An image has 4,104 bytes: bytes 0 to 7 are the live set, least first; byte 8 + 64 * person + on
// has bit r for each right r that the person has on item on.

#![tactic(auto)]

ghost use Rattle.std.specs.Prelude.{◌≡◌, ◌+◌, ◌*◌, ◌<◌, refl, get_or};
ghost use Rattle.std.proofs.Common.{rules};
ghost use Rattle.layouts.specs.Layouts.{rows, row_bytes, fresh_image};
ghost use Rattle.layouts.proofs.Layouts.{rows-cells};
ghost use Rattle.layouts.proofs.Edits.{rows-flat};

use bits::{Word, bytes};
use layouts::flat::FlatUnit;
use layouts::live;
use model::{Item, ItemSet, Right};

mod scan;

// The two bytes of a fresh unit that are not 0: the first of the live set, and the root item's rights on itself.
#[derive(Clone, Copy)]
pub struct Rows {
    pub live: u8,
    pub edit: u8,
}

impl Rows {
    // The bytes of an image.
    pub const BYTES: usize = 4104;

    // As `Lists::fresh`, of other cells at another place.
    pub fn fresh() -> Rows
        ensures { (result.live ≡ get_or (fresh_image rows) 0 0) × (result.edit ≡ get_or (fresh_image rows) 8 0) }
    {
        Rows { live: 1, edit: 1 }
    }
}

impl FlatUnit<{ Rows::BYTES }> for Rows {
    type Cell = u8;

    ghost layout = { rows };

    ghost cells = { λ s. s };

    fn start(image: &mut [u8; Rows::BYTES]) {
        let start = Rows::fresh();
        bytes::clear_each(image, 0, 1, Rows::BYTES);
        image[0] = start.live;
        image[8] = start.edit;
    }

    fn in_order(image: &[u8; Rows::BYTES]) -> bool {
        image[0].has(0) && scan::rows_ok(image)
    }

    fn lives(image: &[u8; Rows::BYTES], i: Item) -> bool {
        live::is_live(image, i)
    }

    fn are_live(image: &[u8; Rows::BYTES], set: ItemSet) -> bool {
        live::are_live(image, set)
    }

    fn holds(image: &[u8; Rows::BYTES], who: Item, on: Item, right: Right) -> bool {
        image[place(who, on)].has(right.number())
    }

    fn persons(image: &[u8; Rows::BYTES]) -> u64 {
        scan::subjects(image)
    }

    fn put_item(image: &mut [u8; Rows::BYTES], by: Item, on: Item) {
        live::insert(image, on);
        Rows::put_grant(image, by, on, Right::edit());
    }

    // The item out of the live set, its own row, then its byte in every row.
    fn drop_item(image: &mut [u8; Rows::BYTES], on: Item) {
        live::remove(image, on);
        let k = on.number() as usize;
        bytes::clear_each(image, 8 + 64 * k, 1, 64);
        bytes::clear_each(image, 8 + k, 64, 64);
    }

    // The right into the person's row.
    fn put_grant(image: &mut [u8; Rows::BYTES], to: Item, on: Item, right: Right) {
        let at = place(to, on);
        image[at] = image[at].with(right.number());
    }

    // The right into the row of every member of the set: one byte in each row.
    fn put_grants(image: &mut [u8; Rows::BYTES], set: ItemSet, on: Item, right: Right) {
        let k = on.number() as usize;
        bytes::set_each(image, 8 + k, 64, set.number(), right.number());
    }

    // The right out of the person's row.
    fn drop_grant(image: &mut [u8; Rows::BYTES], to: Item, on: Item, right: Right) {
        let at = place(to, on);
        image[at] = image[at].without(right.number());
    }

    ghost lengths = { λ s. refl };

    ghost sized = { rows-cells };

    ghost fits = { Prim.search rules };

    ghost flat = { rows-flat };
}

// Where the byte of a person and an item stands.
fn place(who: Item, on: Item) -> usize
    requires { (who.0 < 64) × (on.0 < 64) }
    ensures { (result ≡ 8 + (64 * who.0 + on.0)) × (result < row_bytes) }
{
    8 + (64 * who.number() + on.number()) as usize
}
