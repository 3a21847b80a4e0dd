// The records of a ticket unit as structs in a lent slice. The three functions that are lent structs are exported, in crate rights_c
// (records_unit); this file has what they call, by value.

#![tactic(auto)]

ghost use Rattle.std.specs.Prelude.{◌≡◌, get_or};
ghost use Rattle.ticketing.specs.Machine.{vacant};
ghost use Rattle.ticketing.specs.Image.{ticket_at};
ghost use Rattle.records.specs.Records.{places_for, reading_of, inquiry_of, found_of};

use bits::Word;
use model::{Question, Refusal};
use ticketing::Ticket;
use tickets::Tickets;

// The number of reading an image into a slice, and how many places are to be filled: none beside a refusal. Numbers and no Result, here and
// in `Inquiry`: C lends the structs, so `rights_tickets_records` and `rights_tickets_check_records` go through `count` places whatever is
// refused, and return `number`.
#[derive(Clone, Copy)]
pub struct Reading {
    pub number: u32,
    pub count: usize,
}

// The number of a check over a slice, how many places are to be looked at, and what is asked.
#[derive(Clone, Copy)]
pub struct Inquiry {
    pub number: u32,
    pub count: usize,
    pub who: u32,
    pub on: u32,
    pub right: u32,
}

// The places to go through: every one, and none beside a refusal.
fn places_for(number: u32) -> usize
    ensures { result ≡ places_for number }
{
    if number != 0 { 0 } else { Tickets::PLACES }
}

// Before an image is read into a slice of so many places. The length is told here already, so that the reading needs no test of it.
pub fn judge(image: &[u64], places: usize) -> Reading
    ensures { result ≡ reading_of image.now places }
{
    if places != Tickets::PLACES || image.len() != Tickets::WORDS {
        return Reading {
            number: Refusal::WrongLength.number(),
            count: 0,
        };
    }
    let number = model::number(tickets::inspect(image));
    let count = places_for(number);
    Reading { number, count }
}

// Word i of an image; 0 past its end.
fn word_at(image: &[u64], i: usize) -> u64
    ensures { result ≡ get_or image.now i 0 }
{
    image.get(i).copied().unwrap_or(0)
}

pub fn no_ticket() -> Ticket
    ensures { result ≡ vacant }
{
    Ticket {
        number: 0,
        item: 0,
        right: 0,
        issuer: 0,
        holders: 0,
    }
}

// The ticket at place k of an image; the all-zero record past its end.
pub fn ticket_of(image: &[u64], k: usize) -> Ticket
    ensures { result ≡ ticket_at image.now k }
{
    if image.len() <= k {
        return no_ticket();
    }
    let w = word_at(image, 2 + 2 * k);
    let holders = word_at(image, 3 + 2 * k);
    Ticket {
        number: (w % 4294967296) as u32,
        item: (w / 4294967296 % 256) as u8,
        right: (w / 1099511627776 % 256) as u8,
        issuer: (w / 281474976710656) as u16,
        holders,
    }
}

// Before a check over a slice of so many places.
pub fn ask(places: usize, who: u32, on: u32, right: u32) -> Inquiry
    ensures { result ≡ inquiry_of places who on right }
{
    if places != Tickets::PLACES {
        return Inquiry {
            number: Refusal::WrongLength.number(),
            count: 0,
            who,
            on,
            right,
        };
    }
    let number = match Question::read(who, on, right) {
        Some(_) => 0,
        None => Refusal::OutOfRange.number(),
    };
    Inquiry {
        number,
        count: places_for(number),
        who,
        on,
        right,
    }
}

// 1 where a struct is the ticket that is asked for, else what was found before it; a number, as the exported check writes it.
pub fn look(q: Inquiry, found: u32, t: Ticket) -> u32
    ensures { result ≡ found_of q found t }
{
    if t.item as u32 != q.on || t.right as u32 != q.right || !t.holders.has(q.who) {
        return found;
    }
    1
}
