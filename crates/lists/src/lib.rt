// The lists unit: access control lists. An image has 513 words: word 0 is the live set, bit i for item i; word 1 + 8 * on + right
// is the list of item on and that right, bit s for each person s granted it.

#![tactic(auto)]

ghost use Rattle.std.specs.Prelude.{◌≡◌, ◌+◌, ◌*◌, ◌%◌, ◌<◌, refl, eqb, length, get_or};
ghost use Rattle.bits.specs.Sets.{all_below};
ghost use Rattle.bits.specs.Bits.{without_bit, or_below};
ghost use Rattle.layouts.specs.Layouts.{lists, list_words, fresh_image};
ghost use Rattle.layouts.specs.Order.{block_ok};
ghost use Rattle.bits.specs.Zeros.{swept};
ghost use Rattle.std.proofs.Common.{rules};
ghost use Rattle.layouts.proofs.Layouts.{lists-cells};
ghost use Rattle.layouts.proofs.Edits.{lists-flat};

use bits::{Word, words};
use layouts::flat::FlatUnit;
use model::{Item, ItemSet, Right};

// The two words of a fresh unit that are not 0: the live set, and the list of the root item's right to edit.
#[derive(Clone, Copy)]
pub struct Lists {
    pub live: u64,
    pub edit: u64,
}

impl Lists {
    // The words of an image.
    pub const WORDS: usize = 513;

    // As `Rows::fresh`, of other cells at another place: one function for both would need more laws than it saves lines.
    pub fn fresh() -> Lists
        ensures { (result.live ≡ get_or (fresh_image lists) 0 0) × (result.edit ≡ get_or (fresh_image lists) 1 0) }
    {
        Lists { live: 1, edit: 1 }
    }
}

impl FlatUnit<{ Lists::WORDS }> for Lists {
    type Cell = u64;

    ghost layout = { lists };

    ghost cells = { λ s. s };

    fn start(image: &mut [u64; Lists::WORDS]) {
        let start = Lists::fresh();
        words::clear(image);
        image[0] = start.live;
        image[1] = start.edit;
    }

    fn in_order(image: &[u64; Lists::WORDS]) -> bool {
        image[0].has(0) && items_ok(image)
    }

    fn lives(image: &[u64; Lists::WORDS], i: Item) -> bool {
        image[0].has(i.number())
    }

    fn are_live(image: &[u64; Lists::WORDS], set: ItemSet) -> bool {
        set.number() & !image[0] == 0
    }

    fn holds(image: &[u64; Lists::WORDS], who: Item, on: Item, right: Right) -> bool {
        image[place(on, right)].has(who.number())
    }

    fn persons(image: &[u64; Lists::WORDS]) -> u64 {
        union(&image[1..Lists::WORDS])
    }

    // The item's bit of the live set, then the grant.
    fn put_item(image: &mut [u64; Lists::WORDS], by: Item, on: Item) {
        image[0] = image[0].with(on.number());
        Lists::put_grant(image, by, on, Right::edit());
    }

    // The item's bit everywhere, then its own lists.
    fn drop_item(image: &mut [u64; Lists::WORDS], on: Item) {
        drop_name(image, on);
        let at = place(on, Right::edit());
        words::clear(&mut image[at..at + 8]);
    }

    // The person onto the list.
    fn put_grant(image: &mut [u64; Lists::WORDS], to: Item, on: Item, right: Right) {
        let at = place(on, right);
        image[at] = image[at].with(to.number());
    }

    // Every member of the set onto the list.
    fn put_grants(image: &mut [u64; Lists::WORDS], set: ItemSet, on: Item, right: Right) {
        let at = place(on, right);
        image[at] = image[at] | set.number();
    }

    // The person off the list.
    fn drop_grant(image: &mut [u64; Lists::WORDS], to: Item, on: Item, right: Right) {
        let at = place(on, right);
        image[at] = image[at].without(to.number());
    }

    ghost lengths = { λ s. refl };

    ghost sized = { lists-cells };

    ghost fits = { Prim.search rules };

    ghost flat = { lists-flat };
}

// Where the list of an item and a right stands.
fn place(on: Item, right: Right) -> usize
    requires { (on.0 < 64) × (right.0 < 8) }
    ensures { (result ≡ 1 + (8 * on.0 + right.0)) × (result < list_words) }
{
    1 + (8 * on.number() + right.number()) as usize
}

// Every bit that one of the words has. Rows have the same of bytes (`has_right`), where another question is asked of it.
fn union(words: &[u64]) -> u64
    ensures { result ≡ or_below (length words.now) (λ k. get_or words.now k 0) }
{
    let mut all: u64 = 0;
    for w in words {
        all |= *w;
    }
    all
}

// The persons on the lists of item on who should not be: the dead ones, and all where the item is dead.
fn misplaced(image: &[u64; Lists::WORDS], on: u32) -> u64
    requires { on < 64 }
    ensures { eqb result 0 ≡ block_ok lists image.now 512 on }
{
    let live = image[0];
    let at = 1 + 8 * on as usize;
    let all = union(&image[at..at + 8]);
    if live.has(on) { all & !live } else { all }
}

// Every item, with one test at the end.
fn items_ok(image: &[u64; Lists::WORDS]) -> bool
    ensures { result ≡ all_below 64 (block_ok lists image.now 512) }
{
    let mut bad: u64 = 0;
    for on in 0..64u32 {
        bad |= misplaced(image, on);
    }
    bad == 0
}

// Item i's bit out of every word: the live set's, and its name on each list.
fn drop_name(image: &mut [u64], i: Item)
    ensures { image.new ≡ swept (λ k w. without_bit w (i.0 % 64)) image.old }
{
    for w in image.iter_mut() {
        *w = w.without(i.number());
    }
}
