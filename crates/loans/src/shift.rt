// The shift of a loans image, and which loans have a last one. Every function takes any slice.
ghost use Rattle.std.specs.Prelude.{◌≡◌, not, cond, ◌&&◌, ◌%◌, length, eqb, ltb};
ghost use Rattle.bits.specs.Sets.{any};
ghost use Rattle.model.specs.Journal.{carries};
ghost use Rattle.delegation.specs.Loans.{word_dated, loan_words, shift_in, used, loans_at};

use crate::Loans;
use delegation::loan;
use model::Shift;

// The present shift, cut to its range.
pub fn present(loans: &[u32]) -> Shift
    ensures { result.0 ≡ shift_in loans.now % 256 }
{
    let header = crate::header_of(loans);
    header.present()
}

// Whether a loan with a last shift stands. Every loan is looked at, as in `ends`.
fn has_dated(loans: &[u32]) -> bool
    ensures { result ≡ any word_dated (used loans.now) }
{
    crate::used(loans)
        .iter()
        .fold(false, |dated, w| dated | (loan::last(*w).number() != 0))
}

// Whether that shift is below the present one while a loan with a last shift stands.
pub fn goes_back(loans: &[u32], to: Shift) -> bool
    ensures { result ≡ ltb to.0 (shift_in loans.now % 256) && any word_dated (used loans.now) }
{
    let shift = present(loans);
    if to >= shift {
        return false;
    }
    has_dated(loans)
}

// Whether a loan with that last shift does not carry at the present one.
pub fn is_past(loans: &[u32], last: Shift) -> bool
    ensures { result ≡ not (carries (shift_in loans.now % 256) last.0) }
{
    let shift = present(loans);
    !loan::carries(shift, last)
}

// Sets the shift, cut to its range; the loans stay. A slice of another length stays as it is.
pub fn set(loans: &mut [u32], to: Shift)
    ensures { loans.new
        ≡ cond (eqb (length loans.old) loan_words) (loans_at (to.0 % 256) loans.old) loans.old }
{
    if loans.len() != Loans::WORDS {
        return;
    }
    let header = crate::header_of(loans);
    loans[0] = header.moved(to).word();
}
