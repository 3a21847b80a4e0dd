// Bytes and numbers as text, written into a buffer.
ghost use Rattle.std.specs.Prelude.{◌≡◌, ◌+◌, ◌≤◌, length};
ghost use Rattle.lines.specs.Show.{shown, Wrote};

// Both functions of this module write from a place on and give the place after. They are helpers for
// this crate and for the output lines above it, which see to the room that is required here.
pub fn put_bytes(buf: &mut [u8], at: usize, part: &[u8]) -> usize
    requires { at + length part.now ≤ length buf.old }
    ensures { Wrote buf.old at part.now result buf.new }
{
    let end = at + part.len();
    buf[at..end].copy_from_slice(part);
    end
}

// The decimal digits of n.
pub fn put_number(buf: &mut [u8], at: usize, n: u64) -> usize
    requires { at + length (shown n) ≤ length buf.old }
    ensures { Wrote buf.old at (shown n) result buf.new }
{
    if n < 10 {
        buf[at] = b'0' + n as u8;
        return at + 1;
    }
    let p = put_number(buf, at, n / 10);
    buf[p] = b'0' + (n % 10) as u8;
    p + 1
}
