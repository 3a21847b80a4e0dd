// Lines of output.

#![tactic(auto)]

pub mod reply;

ghost use Rattle.std.specs.Prelude.{◌≡◌, ◌++◌, ◌+◌, ◌≤◌, min, length};
ghost use Rattle.output.specs.declared.reply.Tail.TheVariants.{Chain};
ghost use Rattle.lines.specs.Bytes.{bytes};
ghost use Rattle.lines.specs.Show.{shown, Wrote};
ghost use Rattle.output.specs.Output.{room, Puts, said_text, more_persons, persons, tail_text, units_text, output_line, last_output};

use crate::reply::{Reply, Said, Tail};
use lines::show::{put_bytes, put_number};

// The private functions below write from a place on and give the place after. Each requires the room that its text can take, and
// ensures that no more was taken. A struct of the buffer and the place would add to each contract that it still holds the same buffer.
fn put_said(buf: &mut [u8], at: usize, said: Said) -> usize
    requires { at + 10 ≤ length buf.old }
    ensures { Wrote buf.old at (said_text said) result buf.new × (result ≤ at + 10) }
{
    match said {
        Said::Number(n) => put_number(buf, at, u64::from(n)),
        Said::Yes => put_bytes(buf, at, b"yes"),
        Said::No => put_bytes(buf, at, b"no"),
        Said::Passed => put_bytes(buf, at, b"-"),
    }
}

// A unit's field with its key.
fn put_field(buf: &mut [u8], at: usize, key: &[u8], said: Said) -> usize
    requires { at + length key.now + 10 ≤ length buf.old }
    ensures { Wrote buf.old at (key.now ++ said_text said) result buf.new
        × (result ≤ at + length key.now + 10) }
{
    let p = put_bytes(buf, at, key);
    put_said(buf, p, said)
}

// The number of a line, with its key.
fn put_count(buf: &mut [u8], at: usize, key: &[u8], n: u64) -> usize
    requires { at + length key.now + 20 ≤ length buf.old }
    ensures { Wrote buf.old at (key.now ++ shown n) result buf.new
        × (result ≤ at + length key.now + 20) }
{
    let p = put_bytes(buf, at, key);
    put_number(buf, p, n)
}

fn put_person(buf: &mut [u8], at: usize, person: u8) -> usize
    requires { at + 3 ≤ length buf.old }
    ensures { Wrote buf.old at (shown person) result buf.new × (result ≤ at + 3) }
{
    put_number(buf, at, u64::from(person))
}

// A person after the first.
fn put_next(buf: &mut [u8], at: usize, person: u8) -> usize
    requires { at + 4 ≤ length buf.old }
    ensures { Wrote buf.old at (bytes "," ++ shown person) result buf.new × (result ≤ at + 4) }
{
    let p = put_bytes(buf, at, b",");
    put_person(buf, p, person)
}

fn put_more(buf: &mut [u8], at: usize, via: &[u8]) -> usize
    requires { (at + 28 ≤ length buf.old) × (length via.now ≤ 7) }
    ensures { Wrote buf.old at (more_persons via.now) result buf.new × (result ≤ at + 28) }
{
    let mut p = at;
    for person in via {
        p = put_next(buf, p, *person);
    }
    p
}

fn put_persons(buf: &mut [u8], at: usize, via: &[u8]) -> usize
    requires { (at + 31 ≤ length buf.old) × (length via.now ≤ 8) }
    ensures { Wrote buf.old at (persons via.now) result buf.new × (result ≤ at + 31) }
{
    let Some((first, more)) = via.split_first() else {
        return at;
    };
    let p = put_person(buf, at, *first);
    put_more(buf, p, more)
}

// At most the eight persons of a chain buffer.
fn in_buffer(persons: u32) -> usize
    ensures { (result ≡ min persons 8) × (result ≤ 8) }
{
    persons.min(8) as usize
}

fn put_chain(buf: &mut [u8], at: usize, depth: u32, persons: u32, via: [u8; 8]) -> usize
    requires { at + 53 ≤ length buf.old }
    ensures { Wrote buf.old at (tail_text (Chain depth persons) via) result buf.new × (result ≤ at + 53) }
{
    let p = put_field(buf, at, b" depth=", Said::Number(depth));
    let q = put_bytes(buf, p, b" via=");
    let n = in_buffer(persons);
    put_persons(buf, q, &via[..n])
}

fn put_tail(buf: &mut [u8], at: usize, tail: Tail, via: [u8; 8]) -> usize
    requires { at + 53 ≤ length buf.old }
    ensures { Wrote buf.old at (tail_text tail via) result buf.new × (result ≤ at + 53) }
{
    match tail {
        Tail::Nothing => at,
        Tail::Dashes => put_bytes(buf, at, b" depth=- via=-"),
        Tail::Chain { depth, persons } => put_chain(buf, at, depth, persons, via),
        Tail::Swept(n) => put_field(buf, at, b" swept=", Said::Number(n)),
        Tail::Unswept => put_bytes(buf, at, b" swept=-"),
    }
}

// The three units' fields.
fn put_units(buf: &mut [u8], at: usize, reply: Reply) -> usize
    requires { at + 48 ≤ length buf.old }
    ensures { Wrote buf.old at (units_text reply.list reply.row reply.chain) result buf.new
        × (result ≤ at + 48) }
{
    let list = reply.list;
    let row = reply.row;
    let chain = reply.chain;
    let p = put_field(buf, at, b" list=", list);
    let q = put_field(buf, p, b" row=", row);
    put_field(buf, q, b" chain=", chain)
}

// Line n of the output.
fn write_line(buf: &mut [u8], at: usize, n: u64, reply: Reply, via: [u8; 8]) -> usize
    requires { at + 128 ≤ length buf.old }
    ensures { Wrote buf.old at (output_line n reply via) result buf.new × (result ≤ at + 128) }
{
    let tail = reply.tail;
    let p = put_count(buf, at, b"line=", n);
    let q = put_units(buf, p, reply);
    let r = put_tail(buf, q, tail, via);
    put_bytes(buf, r, b"\n")
}

// The last line.
fn write_last(buf: &mut [u8], at: usize, n: u64) -> usize
    requires { at + 128 ≤ length buf.old }
    ensures { Wrote buf.old at (last_output n) result buf.new × (result ≤ at + 128) }
{
    let p = put_count(buf, at, b"lines=", n);
    put_bytes(buf, p, b"\n")
}

// Whether 128 bytes are left of size bytes, which is room for any line.
pub fn has_room(size: usize, at: usize) -> bool
    ensures { result ≡ room size at }
{
    at <= size && 128 <= size - at
}

// Writes line n from a place on and gives the place after it; where there is no room, nothing is written and the place stays.
pub fn put_line(buf: &mut [u8], at: usize, n: u64, reply: Reply, via: [u8; 8]) -> usize
    ensures { Puts buf.old at (output_line n reply via) result buf.new }
{
    if !has_room(buf.len(), at) {
        return at;
    }
    write_line(buf, at, n, reply, via)
}

// The same of the last line.
pub fn put_last(buf: &mut [u8], at: usize, n: u64) -> usize
    ensures { Puts buf.old at (last_output n) result buf.new }
{
    if !has_room(buf.len(), at) {
        return at;
    }
    write_last(buf, at, n)
}
