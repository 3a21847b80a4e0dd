// The one codec of a loan word, last * 2^24 + lender * 2^18 + on * 2^12 + right * 2^9 + borrower * 2^3 + depth, and of word 0 of a loans
// image, shift * 2^16 + count. Each field is cut to its width: none depends on the bits above it.
ghost use Rattle.std.specs.Prelude.{◌≡◌, ◌*◌, ◌%◌};
ghost use Rattle.model.specs.Journal.{loan, carries};
ghost use Rattle.delegation.specs.Loans.{word_of, cut, last_shift, lender, loan_item, loan_right, borrower, loan_depth, key_of, key_for, header_of, header_in, header_word, recounted, moved_to, fresh_header};

use model::{Depth, Item, Right, Shift};

// Word 0 of a loans image, its upper and its lower half: the present shift, and how many loans stand. `read` and `word` are the names that
// callers have; a `From` beside them would say the same twice.
#[derive(Clone, Copy)]
pub struct Header {
    pub shift: u16,
    pub count: u16,
}

impl Header {
    // Of a fresh image: shift 0, and no loan.
    pub fn fresh() -> Header
        ensures { result ≡ fresh_header }
    {
        Header { shift: 0, count: 0 }
    }

    pub fn read(word: u32) -> Header
        ensures { result ≡ header_of word }
    {
        Header {
            shift: (word / 65536) as u16,
            count: (word % 65536) as u16,
        }
    }

    // Of an image; a slice of no words has that of a fresh one.
    pub fn of(loans: &[u32]) -> Header
        ensures { result ≡ header_in loans.now }
    {
        Header::read(loans.first().copied().unwrap_or(0))
    }

    pub fn word(self) -> u32
        ensures { result ≡ header_word self }
    {
        self.shift as u32 * 65536 + self.count as u32
    }

    // The header of the same image with n loans.
    pub fn recounted(self, n: u16) -> Header
        ensures { result ≡ recounted self n }
    {
        Header {
            shift: self.shift,
            count: n,
        }
    }

    // The header of the same image at another shift, which is cut to its range.
    pub fn moved(self, now: Shift) -> Header
        ensures { result ≡ moved_to self (now.0 % 256) }
    {
        Header {
            shift: (now.number() % 256) as u16,
            count: self.count,
        }
    }

    // The present shift, cut to its range.
    pub fn present(self) -> Shift
        ensures { result.0 ≡ self.shift % 256 }
    {
        shift_in(self.shift as u32)
    }
}

// The word of a loan. A number beyond its range is cut to it, so that the word is one of 32 bits whatever the arguments are.
pub fn word(lender: Item, on: Item, right: Right, borrower: Item, depth: Depth, last: Shift) -> u32
    ensures { result ≡ word_of (cut (loan lender.0 on.0 right.0 borrower.0 depth.0 last.0)) }
{
    let of = last.number() % 256 * 16777216 + lender.number() % 64 * 262144;
    let of = of + on.number() % 64 * 4096 + right.number() % 8 * 512;
    of + borrower.number() % 64 * 8 + depth.number() % 8
}

// The least word of a loan with a last shift: those of open-ended loans lie below it.
pub const DATED: u32 = 16777216;

// The least word of a loan with that last shift, which is cut to its range.
pub fn least(last: Shift) -> u32
    ensures { result ≡ last.0 % 256 * 16777216 }
{
    last.number() % 256 * 16777216
}

// Whether a loan with that last shift carries at shift now.
pub fn carries(now: Shift, last: Shift) -> bool
    ensures { result ≡ carries now.0 last.0 }
{
    (last.number() == 0) | (now.number() <= last.number())
}

// What the lowest bits of a number are as a kind; no number that is cut to them is beyond it.
fn item_in(n: u32) -> Item
    ensures { result.0 ≡ n % 64 }
{
    Item::read(n % 64).unwrap()
}

fn right_in(n: u32) -> Right
    ensures { result.0 ≡ n % 8 }
{
    Right::read(n % 8).unwrap()
}

fn depth_in(n: u32) -> Depth
    ensures { result.0 ≡ n % 8 }
{
    Depth::read(n % 8).unwrap()
}

fn shift_in(n: u32) -> Shift
    ensures { result.0 ≡ n % 256 }
{
    Shift::read(n % 256).unwrap()
}

pub fn last(w: u32) -> Shift
    ensures { result.0 ≡ last_shift w }
{
    shift_in(w / 16777216)
}

pub fn lender(w: u32) -> Item
    ensures { result.0 ≡ lender w }
{
    item_in(w / 262144)
}

pub fn item(w: u32) -> Item
    ensures { result.0 ≡ loan_item w }
{
    item_in(w / 4096)
}

pub fn right(w: u32) -> Right
    ensures { result.0 ≡ loan_right w }
{
    right_in(w / 512)
}

pub fn borrower(w: u32) -> Item
    ensures { result.0 ≡ borrower w }
{
    item_in(w / 8)
}

pub fn depth(w: u32) -> Depth
    ensures { result.0 ≡ loan_depth w }
{
    depth_in(w)
}

// An item and a right in one number, as a loan word has them, and that of a loan word.
pub fn key(on: Item, right: Right) -> u32
    ensures { result ≡ key_for on.0 right.0 }
{
    8 * (on.number() % 64) + right.number() % 8
}

pub fn key_of(w: u32) -> u32
    ensures { result ≡ key_of w }
{
    w / 512 % 512
}
