// Lines put together from chunks of input. The caller lends a line buffer; 128 bytes are enough, since a longer line is malformed.
ghost use Rattle.std.specs.Prelude.{◌≡◌, nat_eq, ◌≤◌, length};
ghost use Rattle.std.specs.List.{position};
ghost use Rattle.lines.specs.Collect.{before_newline, nothing_held, begun, past, after_line, fed_of, buffer_after, held_line};

use crate::Request;

// How much of a line is held, and whether it is longer than the buffer: both, for the length stays where a line goes past it
// (`held_after`). The line itself is in a buffer that the caller lends from call to call: memory is fixed.
#[derive(Clone, Copy)]
pub struct Partial {
    pub len: usize,
    pub over: bool,
}

impl Partial {
    // Before the first byte of a line.
    pub fn none() -> Partial
        ensures { result ≡ nothing_held }
    {
        Partial {
            len: 0,
            over: false,
        }
    }

    // Whether any byte of a line came.
    pub fn is_begun(self) -> bool
        ensures { result ≡ begun self }
    {
        self.over || 0 < self.len
    }
}

// The place of the first byte 10.
fn newline(s: &[u8]) -> Option<usize>
    ensures { result ≡ position (λ b. nat_eq b 10) s.now }
{
    s.iter().position(|b| *b == b'\n')
}

// The same, or the end.
fn line_end(s: &[u8]) -> usize
    ensures { (result ≡ length (before_newline s.now)) × (result ≤ length s.now) }
{
    newline(s).unwrap_or(s.len())
}

// Whether n more bytes go past a buffer of cap bytes.
fn is_past(p: Partial, cap: usize, n: usize) -> bool
    ensures { result ≡ past cap p n }
{
    p.over || cap < p.len || cap - p.len < n
}

// The place after a line that ends at n, where its byte 10 stands, or which is the end of size bytes.
fn after_line(n: usize, size: usize) -> usize
    requires { n ≤ size }
    ensures { result ≡ after_line n size }
{
    if n < size { n + 1 } else { n }
}

// Whether the line ended, how many bytes were taken, and what is held: no Option, for a line that goes on has the other two as well.
#[derive(Clone, Copy)]
pub struct Fed {
    pub ended: bool,
    pub used: usize,
    pub held: Partial,
}

// Takes the bytes of chunk through the first byte 10, or all of them where there is none.
pub fn feed(buf: &mut [u8], p: Partial, chunk: &[u8]) -> Fed
    ensures { (result ≡ fed_of (length buf.old) p chunk.now)
        × (buf.new ≡ buffer_after buf.old p (before_newline chunk.now)) }
{
    let len = p.len;
    let n = line_end(chunk);
    let ended = n < chunk.len();
    let used = after_line(n, chunk.len());
    if is_past(p, buf.len(), n) {
        return Fed {
            ended,
            used,
            held: Partial { len, over: true },
        };
    }
    let next = crate::show::put_bytes(buf, len, &chunk[..n]);
    Fed {
        ended,
        used,
        held: Partial {
            len: next,
            over: false,
        },
    }
}

// What a line that ended asks for, None where it is malformed.
pub fn line(buf: &[u8], held: Partial) -> Option<Request>
    ensures { result ≡ held_line buf.now held }
{
    let len = held.len;
    if is_past(held, buf.len(), 0) {
        return None;
    }
    crate::parse(&buf[..len])
}
