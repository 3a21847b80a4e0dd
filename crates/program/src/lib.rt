// The program: standard input to standard output, over three fresh units. It reads, calls the command reader, and writes.
// No contract can say which bytes are read or written. What they make of the units, the line buffer and the place in the run is said;
// of the output buffer, only what the closing lines put there.

#![tactic(auto)]

ghost use Rattle.std.specs.Prelude.{◌≤◌, length};
ghost use Rattle.lines.specs.Collect.{nothing_held};
ghost use Rattle.reader.specs.Replies.{units_in};
ghost use Rattle.stream.specs.Session.{session, fresh_session};
ghost use Rattle.program.specs.Loop.{Answered, ReadOnce, Finishes, Ran};

use grants::Grants;
use lists::Lists;
use loans::Loans;
use rows::Rows;
use std::io::{Print, Read};
use stream::Progress;

// A read or a write failed, or no more lines can be counted.
#[derive(Clone, Copy)]
struct Failed;

// Writes the first n bytes.
fn write<O: Print>(output: &O, out: &[u8], n: usize) -> Result<(), Failed>
    requires { n ≤ length out.now }
{
    output.write_all(&out[..n]).map_err(|_| Failed)
}

// Hands a chunk to the command reader, as much at a time as the output has room for, and writes the output. The four images are parameters
// of their own, as in stream.
fn answer<O: Print>(
    output: &O,
    list: &mut [u64; Lists::WORDS],
    row: &mut [u8; Rows::BYTES],
    grants: &mut [u8; Grants::BYTES],
    loans: &mut [u32; Loans::WORDS],
    buf: &mut [u8; 128],
    out: &mut [u8],
    p: Progress,
    chunk: &[u8],
) -> Result<Progress, Failed>
    ensures { Answered
        (session p.lines (units_in list.old row.old grants.old loans.old)
        buf.old p.held) chunk.now
        (units_in list.new row.new grants.new loans.new) buf.new result }
{
    let mut next = p;
    let mut rest = chunk;
    while !rest.is_empty() {
        let done = stream::consume(list, row, grants, loans, buf, out, next, rest);
        if done.used == 0 {
            return Err(Failed);
        }
        write(output, out, done.written)?;
        rest = &rest[done.used..];
        next = done.next;
    }
    Ok(next)
}

// Reads once and answers what came; none at the end of input.
fn read_some<I: Read, O: Print>(
    input: &mut I,
    output: &O,
    list: &mut [u64; Lists::WORDS],
    row: &mut [u8; Rows::BYTES],
    grants: &mut [u8; Grants::BYTES],
    loans: &mut [u32; Loans::WORDS],
    buf: &mut [u8; 128],
    out: &mut [u8],
    p: Progress,
) -> Result<Option<Progress>, Failed>
    ensures { ReadOnce
        (session p.lines (units_in list.old row.old grants.old loans.old)
        buf.old p.held)
        (units_in list.new row.new grants.new loans.new) buf.new result }
{
    let mut chunk = [0u8; 65536];
    match input.read(&mut chunk) {
        Err(_) => Err(Failed),
        Ok(0) => Ok(None),
        Ok(n) => {
            let next = answer(output, list, row, grants, loans, buf, out, p, &chunk[..n])?;
            Ok(Some(next))
        }
    }
}

// The closing lines.
fn finish<O: Print>(output: &O, out: &mut [u8], p: Progress) -> Result<(), Failed>
    ensures { Finishes out.old p out.new }
{
    let n = stream::close(out, p);
    write(output, out, n)
}

// Turn after turn to the end of input. A proved loop ends, and nothing says that the input does, so the turns are counted, to a number
// that no run uses up.
fn read_all<I: Read, O: Print>(
    input: &mut I,
    output: &O,
    list: &mut [u64; Lists::WORDS],
    row: &mut [u8; Rows::BYTES],
    grants: &mut [u8; Grants::BYTES],
    loans: &mut [u32; Loans::WORDS],
    buf: &mut [u8; 128],
    out: &mut [u8],
) -> Result<(), Failed>
    ensures { Ran (session 0 (units_in list.old row.old grants.old loans.old)
        buf.old nothing_held)
        (units_in list.new row.new grants.new loans.new) buf.new }
{
    let mut next = Progress::start();
    for _ in 0..u64::MAX {
        match read_some(input, output, list, row, grants, loans, buf, out, next)? {
            Some(p) => next = p,
            None => return finish(output, out, next),
        }
    }
    Ok(())
}

// A whole run, whatever the buffers held: three fresh units, then the input to its end. A failed read or write ends it with no further
// line. What the calls below write for any input is `parts_same` (stream).
pub fn run<I: Read, O: Print>(
    input: &mut I,
    output: &O,
    list: &mut [u64; Lists::WORDS],
    row: &mut [u8; Rows::BYTES],
    grants: &mut [u8; Grants::BYTES],
    loans: &mut [u32; Loans::WORDS],
    buf: &mut [u8; 128],
    out: &mut [u8],
)
    ensures { Ran (fresh_session buf.old)
        (units_in list.new row.new grants.new loans.new) buf.new }
{
    // The buffers have their lengths, so making them fresh is not refused.
    let _ = reader::fresh(list, row, grants, loans);
    // A failure ends the run, and the closing line is not written.
    let _ = read_all(input, output, list, row, grants, loans, buf, out);
}
