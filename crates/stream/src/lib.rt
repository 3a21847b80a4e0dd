// Input in chunks, and the output for it: what the program does between reading and writing.

#![tactic(auto)]

ghost use Rattle.std.specs.Prelude.{◌≡◌, true, ◌+◌, ◌<◌, length};
ghost use Rattle.lines.specs.Collect.{nothing_held, held_line};
ghost use Rattle.output.specs.Output.{room};
ghost use Rattle.reader.specs.Replies.{units_in};
ghost use Rattle.stream.specs.Session.{session, Runs, Takes, Consumes, Closes, last_lines};

use lines::collect;
use lines::collect::Partial;
use output::has_room;
use output::reply::Reply;

// How many lines ended, and how much of the next is held in the line buffer.
#[derive(Clone, Copy)]
pub struct Progress {
    pub lines: u64,
    pub held: Partial,
}

impl Progress {
    // A run ends at this number of lines, so that counting never wraps.
    pub const LAST: u64 = 18446744073709551614;

    // Before any input.
    pub fn start() -> Progress
        ensures { (result.lines ≡ 0) × (result.held ≡ nothing_held) }
    {
        let held = Partial::none();
        Progress { lines: 0, held }
    }
}

// How much of a chunk was taken, how many bytes of the output are written, and where the run stands.
#[derive(Clone, Copy)]
pub struct Consumed {
    pub used: usize,
    pub written: usize,
    pub next: Progress,
}

// Runs the line that ended in the line buffer, and writes its output.
// The four images are parameters of their own, here and below: a struct of four `&mut` would add to each contract that it still holds the
// same four, and the public functions take the images.
fn take_line(
    list: &mut [u64],
    row: &mut [u8],
    grants: &mut [u8],
    loans: &mut [u32],
    out: &mut [u8],
    buf: &[u8],
    at: usize,
    lines: u64,
    held: Partial,
) -> usize
    requires { (room (length out.old) at ≡ true) × (lines < last_lines) }
    ensures { Runs (units_in list.old row.old grants.old loans.old)
        (held_line buf.now held) (lines + 1) out.old at result
        (units_in list.new row.new grants.new loans.new) out.new }
{
    let asked = collect::line(buf, held);
    let done = reader::run(list, row, grants, loans, asked);
    let reply = done.reply;
    let via = done.via;
    output::put_line(out, at, lines + 1, reply, via)
}

// Takes a chunk up to the end of a line, or all of it; a line that ends is run, and its output is written.
fn take_piece(
    list: &mut [u64],
    row: &mut [u8],
    grants: &mut [u8],
    loans: &mut [u32],
    buf: &mut [u8],
    out: &mut [u8],
    at: usize,
    p: Progress,
    chunk: &[u8],
) -> Consumed
    requires { (room (length out.old) at ≡ true) × (p.lines < last_lines) }
    ensures { Takes (session p.lines (units_in list.old row.old grants.old loans.old)
        buf.old p.held) chunk.now out.old at result.used result.written
        (session result.next.lines (units_in list.new row.new grants.new loans.new)
        buf.new result.next.held) out.new }
{
    let lines = p.lines;
    let before = p.held;
    let fed = collect::feed(buf, before, chunk);
    let used = fed.used;
    let held = fed.held;
    if !fed.ended {
        return Consumed {
            used,
            written: at,
            next: Progress { lines, held },
        };
    }
    let end = take_line(list, row, grants, loans, out, buf, at, lines, held);
    let none = Partial::none();
    Consumed {
        used,
        written: end,
        next: Progress {
            lines: lines + 1,
            held: none,
        },
    }
}

// Takes a chunk, or as much of it as the output has room for; 128 bytes are room for a line.
pub fn consume(
    list: &mut [u64],
    row: &mut [u8],
    grants: &mut [u8],
    loans: &mut [u32],
    buf: &mut [u8],
    out: &mut [u8],
    p: Progress,
    chunk: &[u8],
) -> Consumed
    ensures { Consumes
        (session p.lines (units_in list.old row.old grants.old loans.old)
        buf.old p.held) chunk.now out.old result.used result.written
        (session result.next.lines (units_in list.new row.new grants.new loans.new)
        buf.new result.next.held) out.new }
{
    let mut next = p;
    let mut at = 0;
    let mut rest = chunk;
    while !rest.is_empty() && has_room(out.len(), at) && next.lines < Progress::LAST {
        let t = take_piece(list, row, grants, loans, buf, out, at, next, rest);
        rest = &rest[t.used..];
        at = t.written;
        next = t.next;
    }
    Consumed {
        used: chunk.len() - rest.len(),
        written: at,
        next,
    }
}

// The end of input: a line that has begun is malformed and counted, and the last line gives the number of lines. Gives the number of
// bytes written, 0 where the output has not 256.
pub fn close(out: &mut [u8], p: Progress) -> usize
    ensures { Closes out.old p.lines p.held result out.new }
{
    let lines = p.lines;
    if out.len() < 256 || Progress::LAST < lines {
        return 0;
    }
    if !p.held.is_begun() {
        return output::put_last(out, 0, lines);
    }
    let malformed = Reply::malformed();
    let at = output::put_line(out, 0, lines + 1, malformed, [0u8; 8]);
    output::put_last(out, at, lines + 1)
}
