// The ticket unit. An image has 2,050 words: word 0 is the live set, bit i for item i; word 1 is the next number; then come 1,024 places
// of two words, the record of a ticket, number + item * 2^32 + right * 2^40 + issuer * 2^48, and the set of its holders. A place
// without a live ticket is 0.

#![tactic(auto)]

ghost use Rattle.std.specs.Prelude.{◌≡◌, ℕ, ◌&&◌, map, ◌+◌, ◌*◌, ◌<◌, ◌≤◌, eqb, length, get_or, take};
ghost use Rattle.bits.specs.Sets.{any, all};
ghost use Rattle.model.specs.Answers.{number_of, ◌when◌else◌};
ghost use Rattle.ticketing.specs.declared.TicketCommand.TheVariants.{Create, Generate, Pass, Remove, Delete};
ghost use Rattle.ticketing.specs.Machine.{ticket, tickets, most_tickets, lives, is_number, holds, issue, without};
ghost use Rattle.ticketing.specs.Order.{sound, record_ok, differ, is_in_order};
ghost use Rattle.ticketing.specs.Image.{word_of, ticket_of, ticket_at, machine_of, image_of};
ghost use Rattle.ticketing.specs.Unit.{guarded, Judged, Ran, Generates, Inspects, Checks, fresh_image, Freshens};
ghost use Rattle.tickets.specs.Places.{key_of, held_for, is_free, Ready, Issued, JudgedGenerate, placed, placed_ticket, FirstPlace, IsPlace, HasRoom, Gathered};

use bits::{Word, words};
use layouts::admit;
use model::{Item, Refusal, Right};

// The three words of a fresh unit that are not 0: the live set, the next number, and the holders of ticket 0.
#[derive(Clone, Copy)]
pub struct Tickets {
    pub live: u64,
    pub next: u64,
    pub holders: u64,
}

impl Tickets {
    // The words of an image, and the places for tickets.
    pub const WORDS: usize = 2050;

    pub const PLACES: usize = 1024;

    // The next number at which no ticket is issued any more.
    pub const LAST: u64 = 4294967295;

    pub fn fresh() -> Tickets
        ensures { (result.live ≡ get_or fresh_image 0 0) × (result.next ≡ get_or fresh_image 1 0)
            × (result.holders ≡ get_or fresh_image 3 0) }
    {
        Tickets {
            live: 1,
            next: 1,
            holders: 1,
        }
    }
}

// Number 1 alone: whatever the buffer held is overwritten.
pub fn fresh(image: &mut [u64]) -> Result<(), Refusal>
    ensures { Freshens image.old result image.new }
{
    let Some(image) = image.as_mut_array::<{ Tickets::WORDS }>() else {
        return Err(Refusal::WrongLength);
    };
    let start = Tickets::fresh();
    words::clear(image);
    image[0] = start.live;
    image[1] = start.next;
    image[3] = start.holders;
    Ok(())
}

// The record at a place, and the set of its holders.
fn record_at(image: &[u64; Tickets::WORDS], k: usize) -> u64
    requires { k < most_tickets }
    ensures { (result ≡ get_or image.now (2 + 2 * k) 0) × (result < 18446744073709551616) }
{
    image[2 + 2 * k]
}

fn holders_at(image: &[u64; Tickets::WORDS], k: usize) -> u64
    requires { k < most_tickets }
    ensures { (result ≡ get_or image.now (3 + 2 * k) 0) × (result < 18446744073709551616) }
{
    image[3 + 2 * k]
}

// Both words of a place.
fn put_record(image: &mut [u64; Tickets::WORDS], k: usize, w: u64, h: u64)
    requires { k < most_tickets }
    ensures { image.new ≡ placed image.old k w h }
{
    image[2 + 2 * k] = w;
    image[3 + 2 * k] = h;
}

// Whether a live ticket of these words may stand: its number is below the next, right and issuer are within their limits, its item and
// its holders live.
fn is_sound(w: u64, h: u64, live: u64, next: u64) -> bool
    requires { live < 18446744073709551616 }
    ensures { result ≡ sound live next (ticket_of w h) }
{
    let item = (w >> 32) % 256;
    (w % 4294967296 < next)
        & ((w >> 40) % 256 <= Right::MAX as u64)
        & (w >> 48 <= Item::MAX as u64)
        & (item <= Item::MAX as u64)
        & live.has(item as u32)
        & (h & !live == 0)
}

// The numbers of the live tickets, in the order of their places, into the buffer, and how many there are; none where a place is not in
// order. A place is all zero, which most are; or it has a holder, and its ticket may stand. All places are looked at: most images are in
// order, and a way out of the loop makes it slower.
fn gather(image: &[u64; Tickets::WORDS], buffer: &mut [u32; Tickets::PLACES]) -> Option<usize>
    ensures { Gathered image.now buffer.new result }
{
    let live = image[0];
    let next = image[1];
    let mut sound = true;
    let mut count = 0;
    for k in 0..Tickets::PLACES {
        let w = record_at(image, k);
        let h = holders_at(image, k);
        if (w | h) != 0 {
            sound &= (h != 0) & is_sound(w, h, live, next);
            buffer[count] = (w % 4294967296) as u32;
            count += 1;
        }
    }
    sound.then_some(count)
}

// Whether every place is as it may be, and live numbers differ.
fn records_ok(image: &[u64; Tickets::WORDS]) -> bool
    requires { get_or image.now 1 0 < 4294967296 }
    ensures { result ≡ all (record_ok (get_or image.now 0 0) (get_or image.now 1 0))
        (machine_of image.now).records && differ (machine_of image.now).records }
{
    let mut buffer = [0u32; Tickets::PLACES];
    let Some(count) = gather(image, &mut buffer) else {
        return false;
    };
    numbers::differ(&buffer[..count], image[1] as u32)
}

// In order: item 0 lives, the next number is one, every place is as it may be, and live numbers differ.
fn in_order(image: &[u64; Tickets::WORDS]) -> bool
    ensures { result ≡ is_in_order (machine_of image.now) }
{
    if !image[0].has(0) {
        return false;
    }
    if image[1] > Tickets::LAST {
        return false;
    }
    records_ok(image)
}

// Number 2, of an image that has its length.
fn order(image: &[u64; Tickets::WORDS]) -> Result<(), Refusal>
    ensures { number_of result ≡ guarded image.now 0 }
{
    if in_order(image) {
        Ok(())
    } else {
        Err(Refusal::NotInOrder)
    }
}

// Whether the item lives.
fn is_live(image: &[u64; Tickets::WORDS], i: Item) -> bool
    requires { i.0 < 64 }
    ensures { result ≡ lives (machine_of image.now) i.0 }
{
    image[0].has(i.number())
}

// The first place that passes.
fn place_where<F: Fn(usize) -> bool>(passes: F) -> Option<usize>
    requires { (k : ℕ) → k < most_tickets → F.pre passes k }
    ensures { FirstPlace (λ k b. F.post passes k b) result }
{
    for k in 0..Tickets::PLACES {
        if passes(k) {
            return Some(k);
        }
    }
    None
}

// Whether the ticket at that place is for the item and right of the key, and the person holds it.
fn is_held(image: &[u64; Tickets::WORDS], k: usize, who: Item, key: u64) -> bool
    requires { (k < most_tickets) × (who.0 < 64) }
    ensures { result ≡ held_for who.0 key (ticket_at image.now k) }
{
    (record_at(image, k) >> 32) % 65536 == key && holders_at(image, k).has(who.number())
}

// Whether the person holds a ticket for the item and right of the key.
fn holds_key(image: &[u64; Tickets::WORDS], who: Item, key: u64) -> bool
    requires { who.0 < 64 }
    ensures { result ≡ any (held_for who.0 key) (machine_of image.now).records }
{
    place_where(|k| is_held(image, k, who, key)).is_some()
}

// The item and the right as one number.
fn key_of(on: Item, right: Right) -> u64
    requires { (on.0 < 64) × (right.0 < 8) }
    ensures { result ≡ key_of on.0 right.0 }
{
    on.number() as u64 + 256 * right.number() as u64
}

// Whether the person holds a ticket for that item and right.
fn is_holder(image: &[u64; Tickets::WORDS], who: Item, on: Item, right: Right) -> bool
    requires { (who.0 < 64) × (on.0 < 64) × (right.0 < 8) }
    ensures { result ≡ holds (machine_of image.now) who.0 on.0 right.0 }
{
    holds_key(image, who, key_of(on, right))
}

// The first place without a live ticket.
fn first_free(image: &[u64; Tickets::WORDS]) -> Option<usize>
    ensures { IsPlace is_free image.now result }
{
    place_where(|k| holders_at(image, k) == 0)
}

// Whether the place has the live ticket of that number.
fn is_number(w: u64, h: u64, number: u32) -> bool
    ensures { result ≡ is_number number (ticket_of w h) }
{
    (h != 0) & (w % 4294967296 == number as u64)
}

// The place of the live ticket of that number.
fn find(image: &[u64; Tickets::WORDS], number: u32) -> Option<usize>
    ensures { IsPlace (is_number number) image.now result }
{
    place_where(|k| is_number(record_at(image, k), holders_at(image, k), number))
}

// The place for a new ticket. Numbers 15 and 16: no place is free, no number is left.
fn room(image: &[u64; Tickets::WORDS]) -> Result<usize, Refusal>
    ensures { HasRoom image.now result }
{
    let Some(place) = first_free(image) else {
        return Err(Refusal::TicketsFull);
    };
    if image[1] == Tickets::LAST {
        return Err(Refusal::NumbersSpent);
    }
    Ok(place)
}

// The record of a ticket.
fn record_of(number: u64, on: Item, right: Right, by: Item) -> u64
    requires { (number < 4294967296) × (on.0 < 64) × (right.0 < 8) × (by.0 < 64) }
    ensures { result ≡ word_of (ticket number on.0 right.0 by.0 0) }
{
    let head = number + on.number() as u64 * 4294967296;
    let tail = right.number() as u64 * 1099511627776 + by.number() as u64 * 281474976710656;
    head + tail
}

// A ticket at that place, under the next number, which rises. Its issuer holds it.
fn put_ticket(image: &mut [u64; Tickets::WORDS], place: usize, by: Item, on: Item, right: Right)
    requires { Issued image.old place by.0 on.0 right.0 }
    ensures { image.new
        ≡ image_of (issue (machine_of image.old) (get_or image.old 0 0) by.0 on.0 right.0) }
{
    let number = image[1];
    let w = record_of(number, on, right, by);
    let h = 0u64.with(by.number());
    put_record(image, place, w, h);
    image[1] = number + 1;
}

// Each command past numbers 1 to 3 has its rows of the table in their order, as the request tells them: no two have the same.

// create past numbers 1 to 3: 4, 6, 15, 16.
fn make(image: &mut [u64; Tickets::WORDS], by: Item, on: Item) -> Result<(), Refusal>
    requires { Ready image.old by.0 on.0 0 }
    ensures { Judged image.old (Create by.0 on.0) (number_of result) image.new }
{
    if !is_live(image, by) {
        return Err(Refusal::ByDead);
    }
    if is_live(image, on) {
        return Err(Refusal::AlreadyLive);
    }
    let place = room(image)?;
    image[0] = image[0].with(on.number());
    put_ticket(image, place, by, on, Right::edit());
    Ok(())
}

// generate past numbers 1 to 3: 4, 5, 17, 15, 16.
fn give(image: &mut [u64; Tickets::WORDS], by: Item, on: Item, right: Right) -> Result<u32, Refusal>
    requires { Ready image.old by.0 on.0 right.0 }
    ensures { JudgedGenerate image.old by.0 on.0 right.0 result image.new }
{
    if !is_live(image, by) {
        return Err(Refusal::ByDead);
    }
    if !is_live(image, on) {
        return Err(Refusal::NamedDead);
    }
    if !is_holder(image, by, on, Right::edit()) {
        return Err(Refusal::NoTicket);
    }
    let place = room(image)?;
    let number = image[1] as u32;
    put_ticket(image, place, by, on, right);
    Ok(number)
}

// pass past numbers 1 to 3: 4, 5, 17.
fn add_holder(
    image: &mut [u64; Tickets::WORDS],
    by: Item,
    to: Item,
    number: u32,
) -> Result<(), Refusal>
    requires { Ready image.old by.0 to.0 0 }
    ensures { Judged image.old (Pass by.0 to.0 number) (number_of result) image.new }
{
    if !is_live(image, by) {
        return Err(Refusal::ByDead);
    }
    if !is_live(image, to) {
        return Err(Refusal::NamedDead);
    }
    let Some(place) = find(image, number) else {
        return Err(Refusal::NoTicket);
    };
    let w = record_at(image, place);
    let h = holders_at(image, place);
    if !h.has(by.number()) {
        return Err(Refusal::NoTicket);
    }
    put_record(image, place, w, h.with(to.number()));
    Ok(())
}

// remove past numbers 1 to 3: 4, 17.
fn end_ticket(image: &mut [u64; Tickets::WORDS], by: Item, number: u32) -> Result<(), Refusal>
    requires { Ready image.old by.0 0 0 }
    ensures { Judged image.old (Remove by.0 number) (number_of result) image.new }
{
    if !is_live(image, by) {
        return Err(Refusal::ByDead);
    }
    let Some(place) = find(image, number) else {
        return Err(Refusal::NoTicket);
    };
    let item = (record_at(image, place) >> 32) % 256;
    if !holds_key(image, by, item) {
        return Err(Refusal::NoTicket);
    }
    put_record(image, place, 0, 0);
    Ok(())
}

// The item out of the holders at that place, where there is a ticket; it ends where it is the item's, or has no holder left.
fn drop_at(image: &mut [u64; Tickets::WORDS], k: usize, on: Item)
    requires { (k < most_tickets) × (on.0 < 64) }
    ensures { image.new ≡ placed_ticket image.old k (without on.0 (ticket_at image.old k)) }
{
    let w = record_at(image, k);
    let before = holders_at(image, k);
    if (w | before) == 0 {
        return;
    }
    let h = before.without(on.number());
    if ((w >> 32) % 256 == on.number() as u64) | (h == 0) {
        put_record(image, k, 0, 0);
        return;
    }
    put_record(image, k, w, h);
}

// The same at every place.
fn drop_all(image: &mut [u64; Tickets::WORDS], on: Item)
    requires { on.0 < 64 }
    ensures { image.new ≡ image_of (tickets (get_or image.old 0 0) (get_or image.old 1 0)
        (map (without on.0) (machine_of image.old).records)) }
{
    for k in 0..Tickets::PLACES {
        drop_at(image, k, on);
    }
}

// delete past numbers 1 to 3: 4, 5, 7, 17.
fn drop_item(image: &mut [u64; Tickets::WORDS], by: Item, on: Item) -> Result<(), Refusal>
    requires { Ready image.old by.0 on.0 0 }
    ensures { Judged image.old (Delete by.0 on.0) (number_of result) image.new }
{
    if !is_live(image, by) {
        return Err(Refusal::ByDead);
    }
    if !is_live(image, on) {
        return Err(Refusal::NamedDead);
    }
    if on.number() == 0 {
        return Err(Refusal::RootItem);
    }
    if !is_holder(image, by, on, Right::edit()) {
        return Err(Refusal::NoTicket);
    }
    image[0] = image[0].without(on.number());
    drop_all(image, on);
    Ok(())
}

// Item on lives, and by holds a new ticket for right 0 on it.
pub fn create(image: &mut [u64], by: u32, on: u32) -> Result<(), Refusal>
    ensures { Ran image.old (Create by on) result image.new }
{
    let Some(image) = image.as_mut_array() else {
        return Err(Refusal::WrongLength);
    };
    let q = admit::check(order(image), by, on, 0)?;
    make(image, q.who, q.on)
}

// A new ticket for that item and right, held by its issuer; its number.
pub fn generate(image: &mut [u64], by: u32, on: u32, right: u32) -> Result<u32, Refusal>
    ensures { Generates image.old (Generate by on right) result image.new }
{
    let Some(image) = image.as_mut_array() else {
        return Err(Refusal::WrongLength);
    };
    let q = admit::check(order(image), by, on, right)?;
    give(image, q.who, q.on, q.right)
}

// The holder by makes to a holder too.
pub fn pass(image: &mut [u64], by: u32, to: u32, number: u32) -> Result<(), Refusal>
    ensures { Ran image.old (Pass by to number) result image.new }
{
    let Some(image) = image.as_mut_array() else {
        return Err(Refusal::WrongLength);
    };
    let q = admit::check(order(image), by, to, 0)?;
    add_holder(image, q.who, q.on, number)
}

// The ticket ends: nobody holds it any more.
pub fn remove(image: &mut [u64], by: u32, number: u32) -> Result<(), Refusal>
    ensures { Ran image.old (Remove by number) result image.new }
{
    let Some(image) = image.as_mut_array() else {
        return Err(Refusal::WrongLength);
    };
    let q = admit::check(order(image), by, 0, 0)?;
    end_ticket(image, q.who, number)
}

// Item on is dead, its tickets end, and it holds none.
pub fn delete(image: &mut [u64], by: u32, on: u32) -> Result<(), Refusal>
    ensures { Ran image.old (Delete by on) result image.new }
{
    let Some(image) = image.as_mut_array() else {
        return Err(Refusal::WrongLength);
    };
    let q = admit::check(order(image), by, on, 0)?;
    drop_item(image, q.who, q.on)
}

// Whether the person holds a live ticket for that item and right.
pub fn check(image: &[u64], who: u32, on: u32, right: u32) -> Result<bool, Refusal>
    ensures { Checks image.now who on right result image.now }
{
    let Some(image) = image.as_array() else {
        return Err(Refusal::WrongLength);
    };
    let q = admit::check(order(image), who, on, right)?;
    Ok(is_holder(image, q.who, q.on, q.right))
}

// Numbers 1 and 2 alone, for a caller that reads the records itself.
pub fn inspect(image: &[u64]) -> Result<(), Refusal>
    ensures { Inspects image.now result image.now }
{
    let Some(image) = image.as_array() else {
        return Err(Refusal::WrongLength);
    };
    order(image)
}
