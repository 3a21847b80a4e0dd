// The grants image of a chain unit, 32,776 bytes: bytes 0 to 7 are the live set, least first; byte 8 + 512 * on + 64 * right + person
// has bit d for each depth d of the person's grants there. These are helpers for the chain unit: it has judged lengths and ranges, so
// each function may require them. Each takes any slice, since a public contract asks no narrower type of its callers.

#![tactic(auto)]

ghost use Rattle.std.specs.Prelude.{◌≡◌, ◌+◌, ◌*◌, ◌<◌, length, get_or};
ghost use Rattle.model.specs.Journal.{grant};
ghost use Rattle.layouts.specs.Live.{masks_of};
ghost use Rattle.layouts.specs.Layouts.{grant_bytes, grant_cells, held, is_in_order, created, deleted, allowed, allowed_set, dropped, withdrawn, fresh_image, fresh_of};

use bits::{Word, bytes};
use layouts::live;
use model::{Depth, Item, ItemSet, Right};

mod scan;

// The two bytes of a fresh image that are not 0: the first of the live set, and the root item's edit grant on itself.
#[derive(Clone, Copy)]
pub struct Grants {
    pub live: u8,
    pub edit: u8,
}

impl Grants {
    // The bytes of an image.
    pub const BYTES: usize = 32776;

    // As `Rows::fresh`, of an image of another length.
    pub fn fresh() -> Grants
        ensures { (result.live ≡ get_or (fresh_image grant_bytes) 0 0) × (result.edit ≡ get_or (fresh_image grant_bytes) 8 0) }
    {
        Grants { live: 1, edit: 1 }
    }
}

// Whatever the buffer held is overwritten. One of another length stays as it is.
pub fn fresh(grants: &mut [u8])
    ensures { grants.new ≡ fresh_of grant_bytes grants.old }
{
    if grants.len() != Grants::BYTES {
        return;
    }
    let start = Grants::fresh();
    bytes::clear_each(grants, 0, 1, Grants::BYTES);
    grants[0] = start.live;
    grants[8] = start.edit;
}

// Whether item 0 lives and no dead item is named. The chain unit makes the masks, since its loans are judged by them too.
pub fn in_order(grants: &[u8], masks: &[u8; 64]) -> bool
    requires { (length grants.now ≡ grant_cells) × (masks.now ≡ masks_of grants.now) }
    ensures { result ≡ is_in_order grant_bytes grants.now }
{
    grants[0].has(0) && scan::items_ok(grants, masks)
}

// Where the byte of a person, an item and a right stands.
fn place(who: Item, on: Item, right: Right) -> usize
    requires { (who.0 < 64) × (on.0 < 64) × (right.0 < 8) }
    ensures { (result ≡ 8 + (512 * on.0 + 64 * right.0 + who.0)) × (result < grant_cells) }
{
    8 + (512 * on.number() + 64 * right.number() + who.number()) as usize
}

// Whether the person has a grant there, of any depth.
pub fn holds(grants: &[u8], who: Item, on: Item, right: Right) -> bool
    requires { (length grants.now ≡ grant_cells) × (who.0 < 64) × (on.0 < 64) × (right.0 < 8) }
    ensures { result ≡ held grant_bytes grants.now who.0 on.0 right.0 }
{
    let at = place(who, on, right);
    grants[at] != 0
}

pub fn put_grant(grants: &mut [u8], to: Item, on: Item, right: Right, depth: Depth)
    requires { (length grants.old ≡ grant_cells) × (to.0 < 64) × (on.0 < 64) × (right.0 < 8) × (depth.0 < 8) }
    ensures { grants.new ≡ allowed grant_bytes grants.old (grant to.0 on.0 right.0 depth.0) }
{
    let at = place(to, on, right);
    grants[at] = grants[at].with(depth.number());
}

// The depth to every member of the set: their bytes stand side by side.
pub fn put_grants(grants: &mut [u8], set: ItemSet, on: Item, right: Right, depth: Depth)
    requires { (length grants.old ≡ grant_cells) × (on.0 < 64) × (right.0 < 8) × (depth.0 < 8) }
    ensures { grants.new ≡ allowed_set grant_bytes grants.old set.0 on.0 right.0 depth.0 }
{
    let at = place(Item::root(), on, right);
    bytes::set_each(grants, at, 1, set.number(), depth.number());
}

// One depth ends, if it stands.
pub fn drop_grant(grants: &mut [u8], to: Item, on: Item, right: Right, depth: Depth)
    requires { (length grants.old ≡ grant_cells) × (to.0 < 64) × (on.0 < 64) × (right.0 < 8) × (depth.0 < 8) }
    ensures { grants.new ≡ dropped grant_bytes grants.old (grant to.0 on.0 right.0 depth.0) }
{
    let at = place(to, on, right);
    grants[at] = grants[at].without(depth.number());
}

// Every depth ends: the eight drops in one write.
pub fn drop_grants(grants: &mut [u8], to: Item, on: Item, right: Right)
    requires { (length grants.old ≡ grant_cells) × (to.0 < 64) × (on.0 < 64) × (right.0 < 8) }
    ensures { grants.new ≡ withdrawn grant_bytes grants.old to.0 on.0 right.0 }
{
    let at = place(to, on, right);
    grants[at] = 0;
}

// The item into the live set, with an edit grant of depth 0 to its maker.
pub fn put_item(grants: &mut [u8], by: Item, on: Item)
    requires { (length grants.old ≡ grant_cells) × (by.0 < 64) × (on.0 < 64) }
    ensures { grants.new ≡ created grant_bytes grants.old by.0 on.0 }
{
    live::insert(grants, on);
    put_grant(grants, by, on, Right::edit(), Depth::zero());
}

// The item out of the live set, its own block of bytes, then its byte as a person in each row of 64.
pub fn drop_item(grants: &mut [u8], on: Item)
    requires { (length grants.old ≡ grant_cells) × (on.0 < 64) }
    ensures { grants.new ≡ deleted grant_bytes grants.old on.0 }
{
    live::remove(grants, on);
    let k = on.number() as usize;
    bytes::clear_each(grants, 8 + 512 * k, 1, 512);
    bytes::clear_each(grants, 8 + k, 64, 512);
}
