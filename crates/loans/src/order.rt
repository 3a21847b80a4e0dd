// Whether a loans image is in order. Each test looks at every word, whatever the others say: a loop with no exit is one of vectors.
ghost use Rattle.std.specs.Prelude.{◌≡◌, ◌&&◌, ◌+◌, ◌<◌, length, eqb, leb};
ghost use Rattle.bits.specs.Sets.{all};
ghost use Rattle.model.specs.Commands.{shifts, most_loans};
ghost use Rattle.delegation.specs.Loans.{rising, loan_words, loans_in_order};
ghost use Rattle.loans.specs.Words.{unmasked, shaped, names_live, none_dead};

use crate::Loans;
use delegation::loan;
use delegation::loan::Header;
use model::Shift;

fn rises(s: &[u32]) -> bool
    ensures { result ≡ rising s.now }
{
    s.windows(2).fold(true, |rises, w| rises & (w[0] < w[1]))
}

fn are_shaped(s: &[u32]) -> bool
    ensures { result ≡ all shaped s.now }
{
    s.iter()
        .fold(true, |all, w| all & (loan::right(*w).number() != 0))
}

// Which fields of the loans read so far name a dead item: 0 where none does. A sum for each field, so that no look-up waits for another.
#[derive(Clone, Copy, Default)]
struct Dead {
    lender: u8,
    item: u8,
    borrower: u8,
}

// One loan more.
fn note(dead: Dead, w: u32, masks: &[u8; 64]) -> Dead
    ensures { none_dead result ≡ none_dead dead && names_live (unmasked masks.now) w }
{
    let p = loan::lender(w).number() as usize;
    let i = loan::item(w).number() as usize;
    let q = loan::borrower(w).number() as usize;
    Dead {
        lender: dead.lender | masks[p],
        item: dead.item | masks[i],
        borrower: dead.borrower | masks[q],
    }
}

// All of some loans more.
fn note_all(dead: Dead, s: &[u32], masks: &[u8; 64]) -> Dead
    ensures { none_dead result ≡ none_dead dead && all (names_live (unmasked masks.now)) s.now }
{
    s.iter().fold(dead, |dead, w| note(dead, *w, masks))
}

// First four loans a turn, which takes less time than one, then the rest.
fn are_live(s: &[u32], masks: &[u8; 64]) -> bool
    ensures { result ≡ all (names_live (unmasked masks.now)) s.now }
{
    let (fours, rest) = s.as_chunks::<4>();
    let dead = fours
        .iter()
        .fold(Dead::default(), |dead, four| note_all(dead, four, masks));
    let dead = note_all(dead, rest, masks);
    (dead.lender | dead.item | dead.borrower) == 0
}

fn are_zero(s: &[u32]) -> bool
    ensures { result ≡ all (eqb 0) s.now }
{
    s.iter().fold(0, |bits, w| bits | *w) == 0
}

// Whether shift and count are within their limits.
fn in_limits(header: Header) -> bool
    ensures { result ≡ shifts header.shift && leb header.count most_loans }
{
    (u32::from(header.shift) <= Shift::MAX) & (u32::from(header.count) <= Loans::MAX)
}

// Whether the slice is an image in order, by a mask of the living items: 0 where one lives, 255 where not.
pub fn in_order(loans: &[u32], masks: &[u8; 64]) -> bool
    ensures { result
        ≡ eqb (length loans.now) loan_words && loans_in_order (unmasked masks.now) loans.now }
{
    if loans.len() != Loans::WORDS {
        return false;
    }
    let header = crate::header_of(loans);
    if !in_limits(header) {
        return false;
    }
    let used = crate::used(loans);
    rises(used) && are_shaped(used) && are_live(used, masks) && are_zero(&loans[used.len() + 1..])
}
