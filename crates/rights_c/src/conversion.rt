// Lists into rows and back, for C.
ghost use Rattle.layouts.specs.Layouts.{lists, rows};
ghost use Rattle.rights_c.specs.Exports.{Turns};

use model::number;

#[unsafe(no_mangle)]
pub extern "C" fn rights_lists_to_rows(source: &[u64], target: &mut [u8]) -> u32
    ensures { Turns lists rows source.now target.old result source.now target.new }
{
    number(convert::to_rows(source, target))
}

#[unsafe(no_mangle)]
pub extern "C" fn rights_rows_to_lists(source: &[u8], target: &mut [u64]) -> u32
    ensures { Turns rows lists source.now target.old result source.now target.new }
{
    number(convert::to_lists(source, target))
}
