// The C interface: every public function of the four units under a C name, the lent slice of ticket structs, and which engine this is.
// Nothing is decided here: each function calls its unit's, those of the slice crate records' at each place, and gives the answer as its
// number in documents 01 and 02. include/rights.h declares them.

#![tactic(auto)]

ghost use Rattle.std.specs.Prelude.{◌≡◌};

use version::{Layout, Version};

mod chain_unit;
mod conversion;
mod lists_unit;
mod records_unit;
mod reply;
mod rows_unit;
mod tickets_unit;

#[unsafe(no_mangle)]
pub extern "C" fn rights_version() -> u32
    ensures { result ≡ 10900 }
{
    Version::number()
}

#[unsafe(no_mangle)]
pub extern "C" fn rights_layout_date() -> u32
    ensures { result ≡ 20261117 }
{
    Layout::date()
}
