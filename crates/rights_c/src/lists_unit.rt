// The lists unit for C, which has no generic functions: so each unit has its exported names, and lists and rows are written twice here.
ghost use Rattle.model.specs.declared.Command.TheVariants.{Create, Delete, Allow, Withdraw, AllowSet};
ghost use Rattle.layouts.specs.Layouts.{lists, flat_unit};
ghost use Rattle.rights_c.specs.Exports.{Gives, Freshens, Answers, Subjects, Inspects};

use layouts::flat::FlatUnit;
use lists::Lists;
use model::number;

#[unsafe(no_mangle)]
pub extern "C" fn rights_lists_fresh(image: &mut [u64]) -> u32
    ensures { Freshens lists image.old result image.new }
{
    number(Lists::freshen(image))
}

#[unsafe(no_mangle)]
pub extern "C" fn rights_lists_create(image: &mut [u64], by: u32, on: u32) -> u32
    ensures { Gives (flat_unit lists) image.old (Create by on) result image.new }
{
    number(Lists::create(image, by, on))
}

#[unsafe(no_mangle)]
pub extern "C" fn rights_lists_delete(image: &mut [u64], by: u32, on: u32) -> u32
    ensures { Gives (flat_unit lists) image.old (Delete by on) result image.new }
{
    number(Lists::delete(image, by, on))
}

#[unsafe(no_mangle)]
pub extern "C" fn rights_lists_allow(
    image: &mut [u64],
    by: u32,
    to: u32,
    on: u32,
    right: u32,
    depth: u32,
) -> u32
    ensures { Gives (flat_unit lists) image.old (Allow by to on right depth) result image.new }
{
    number(Lists::allow(image, by, to, on, right, depth))
}

#[unsafe(no_mangle)]
pub extern "C" fn rights_lists_allow_set(
    image: &mut [u64],
    by: u32,
    set: u64,
    on: u32,
    right: u32,
    depth: u32,
) -> u32
    ensures { Gives (flat_unit lists) image.old (AllowSet by set on right depth) result image.new }
{
    number(Lists::allow_set(image, by, set, on, right, depth))
}

#[unsafe(no_mangle)]
pub extern "C" fn rights_lists_withdraw(
    image: &mut [u64],
    by: u32,
    to: u32,
    on: u32,
    right: u32,
) -> u32
    ensures { Gives (flat_unit lists) image.old (Withdraw by to on right) result image.new }
{
    number(Lists::withdraw(image, by, to, on, right))
}

#[unsafe(no_mangle)]
pub extern "C" fn rights_lists_check(
    image: &[u64],
    who: u32,
    on: u32,
    right: u32,
    yes: &mut u32,
) -> u32
    ensures { Answers lists image.now who on right result yes.new image.now }
{
    let c = Lists::check(image, who, on, right);
    *yes = c.unwrap_or(false) as u32;
    number(c)
}

#[unsafe(no_mangle)]
pub extern "C" fn rights_lists_subjects(image: &[u64], persons: &mut u64) -> u32
    ensures { Subjects lists image.now result persons.new image.now }
{
    let s = Lists::subjects(image);
    *persons = s.unwrap_or(0);
    number(s)
}

#[unsafe(no_mangle)]
pub extern "C" fn rights_lists_inspect(image: &[u64]) -> u32
    ensures { Inspects lists image.now result image.now }
{
    number(Lists::inspect(image))
}
