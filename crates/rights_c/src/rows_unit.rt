// The rows unit for C; it is the lists unit's file under other names, since C has no generic functions.
ghost use Rattle.model.specs.declared.Command.TheVariants.{Create, Delete, Allow, Withdraw, AllowSet};
ghost use Rattle.layouts.specs.Layouts.{rows, flat_unit};
ghost use Rattle.rights_c.specs.Exports.{Gives, Freshens, Answers, Subjects, Inspects};

use layouts::flat::FlatUnit;
use model::number;
use rows::Rows;

#[unsafe(no_mangle)]
pub extern "C" fn rights_rows_fresh(image: &mut [u8]) -> u32
    ensures { Freshens rows image.old result image.new }
{
    number(Rows::freshen(image))
}

#[unsafe(no_mangle)]
pub extern "C" fn rights_rows_create(image: &mut [u8], by: u32, on: u32) -> u32
    ensures { Gives (flat_unit rows) image.old (Create by on) result image.new }
{
    number(Rows::create(image, by, on))
}

#[unsafe(no_mangle)]
pub extern "C" fn rights_rows_delete(image: &mut [u8], by: u32, on: u32) -> u32
    ensures { Gives (flat_unit rows) image.old (Delete by on) result image.new }
{
    number(Rows::delete(image, by, on))
}

#[unsafe(no_mangle)]
pub extern "C" fn rights_rows_allow(
    image: &mut [u8],
    by: u32,
    to: u32,
    on: u32,
    right: u32,
    depth: u32,
) -> u32
    ensures { Gives (flat_unit rows) image.old (Allow by to on right depth) result image.new }
{
    number(Rows::allow(image, by, to, on, right, depth))
}

#[unsafe(no_mangle)]
pub extern "C" fn rights_rows_allow_set(
    image: &mut [u8],
    by: u32,
    set: u64,
    on: u32,
    right: u32,
    depth: u32,
) -> u32
    ensures { Gives (flat_unit rows) image.old (AllowSet by set on right depth) result image.new }
{
    number(Rows::allow_set(image, by, set, on, right, depth))
}

#[unsafe(no_mangle)]
pub extern "C" fn rights_rows_withdraw(
    image: &mut [u8],
    by: u32,
    to: u32,
    on: u32,
    right: u32,
) -> u32
    ensures { Gives (flat_unit rows) image.old (Withdraw by to on right) result image.new }
{
    number(Rows::withdraw(image, by, to, on, right))
}

#[unsafe(no_mangle)]
pub extern "C" fn rights_rows_check(
    image: &[u8],
    who: u32,
    on: u32,
    right: u32,
    yes: &mut u32,
) -> u32
    ensures { Answers rows image.now who on right result yes.new image.now }
{
    let c = Rows::check(image, who, on, right);
    *yes = c.unwrap_or(false) as u32;
    number(c)
}

#[unsafe(no_mangle)]
pub extern "C" fn rights_rows_subjects(image: &[u8], persons: &mut u64) -> u32
    ensures { Subjects rows image.now result persons.new image.now }
{
    let s = Rows::subjects(image);
    *persons = s.unwrap_or(0);
    number(s)
}

#[unsafe(no_mangle)]
pub extern "C" fn rights_rows_inspect(image: &[u8]) -> u32
    ensures { Inspects rows image.now result image.now }
{
    number(Rows::inspect(image))
}
