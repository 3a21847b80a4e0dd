// The chain unit for C.
ghost use Rattle.model.specs.declared.Command.TheVariants.{Create, Delete, Allow, Withdraw, Lend, Recall, Shift, AllowSet, Drop, Sweep};
ghost use Rattle.delegation.specs.Images.{images};
ghost use Rattle.delegation.specs.ChainUnit.{chain_unit};
ghost use Rattle.rights_c.specs.Exports.{Gives, GivesCount, ChainFreshens, ChainAnswers, ChainInspects};

use crate::reply;
use model::number;

#[unsafe(no_mangle)]
pub extern "C" fn rights_chains_fresh(grants: &mut [u8], loans: &mut [u32]) -> u32
    ensures { ChainFreshens (images grants.old loans.old) result
        (images grants.new loans.new) }
{
    number(chains::fresh(grants, loans))
}

#[unsafe(no_mangle)]
pub extern "C" fn rights_chains_create(
    grants: &mut [u8],
    loans: &mut [u32],
    by: u32,
    on: u32,
) -> u32
    ensures { Gives chain_unit (images grants.old loans.old) (Create by on) result
        (images grants.new loans.new) }
{
    number(chains::create(grants, loans, by, on))
}

#[unsafe(no_mangle)]
pub extern "C" fn rights_chains_delete(
    grants: &mut [u8],
    loans: &mut [u32],
    by: u32,
    on: u32,
) -> u32
    ensures { Gives chain_unit (images grants.old loans.old) (Delete by on) result
        (images grants.new loans.new) }
{
    number(chains::delete(grants, loans, by, on))
}

#[unsafe(no_mangle)]
pub extern "C" fn rights_chains_allow(
    grants: &mut [u8],
    loans: &mut [u32],
    by: u32,
    to: u32,
    on: u32,
    right: u32,
    depth: u32,
) -> u32
    ensures { Gives chain_unit (images grants.old loans.old) (Allow by to on right depth) result
        (images grants.new loans.new) }
{
    number(chains::allow(grants, loans, by, to, on, right, depth))
}

#[unsafe(no_mangle)]
pub extern "C" fn rights_chains_allow_set(
    grants: &mut [u8],
    loans: &mut [u32],
    by: u32,
    set: u64,
    on: u32,
    right: u32,
    depth: u32,
) -> u32
    ensures { Gives chain_unit (images grants.old loans.old) (AllowSet by set on right depth) result
        (images grants.new loans.new) }
{
    number(chains::allow_set(grants, loans, by, set, on, right, depth))
}

#[unsafe(no_mangle)]
pub extern "C" fn rights_chains_withdraw(
    grants: &mut [u8],
    loans: &mut [u32],
    by: u32,
    to: u32,
    on: u32,
    right: u32,
) -> u32
    ensures { Gives chain_unit (images grants.old loans.old) (Withdraw by to on right) result
        (images grants.new loans.new) }
{
    number(chains::withdraw(grants, loans, by, to, on, right))
}

#[unsafe(no_mangle)]
pub extern "C" fn rights_chains_drop(
    grants: &mut [u8],
    loans: &mut [u32],
    by: u32,
    to: u32,
    on: u32,
    right: u32,
    depth: u32,
) -> u32
    ensures { Gives chain_unit (images grants.old loans.old) (Drop by to on right depth) result
        (images grants.new loans.new) }
{
    number(chains::drop(grants, loans, by, to, on, right, depth))
}

#[unsafe(no_mangle)]
pub extern "C" fn rights_chains_lend(
    grants: &mut [u8],
    loans: &mut [u32],
    by: u32,
    to: u32,
    on: u32,
    right: u32,
    depth: u32,
    last: u32,
) -> u32
    ensures { Gives chain_unit (images grants.old loans.old) (Lend by to on right depth last) result
        (images grants.new loans.new) }
{
    number(chains::lend(grants, loans, by, to, on, right, depth, last))
}

#[unsafe(no_mangle)]
pub extern "C" fn rights_chains_recall(
    grants: &mut [u8],
    loans: &mut [u32],
    by: u32,
    to: u32,
    on: u32,
    right: u32,
    depth: u32,
    last: u32,
) -> u32
    ensures { Gives chain_unit (images grants.old loans.old) (Recall by to on right depth last) result
        (images grants.new loans.new) }
{
    number(chains::recall(grants, loans, by, to, on, right, depth, last))
}

#[unsafe(no_mangle)]
pub extern "C" fn rights_chains_shift(
    grants: &mut [u8],
    loans: &mut [u32],
    by: u32,
    shift: u32,
) -> u32
    ensures { Gives chain_unit (images grants.old loans.old) (Shift by shift) result
        (images grants.new loans.new) }
{
    number(chains::shift(grants, loans, by, shift))
}

#[unsafe(no_mangle)]
pub extern "C" fn rights_chains_sweep(
    grants: &mut [u8],
    loans: &mut [u32],
    by: u32,
    swept: &mut u32,
) -> u32
    ensures { GivesCount chain_unit (images grants.old loans.old) (Sweep by) result swept.new
        (images grants.new loans.new) }
{
    let counted = chains::sweep(grants, loans, by);
    *swept = counted.unwrap_or(0);
    number(counted)
}

#[unsafe(no_mangle)]
pub extern "C" fn rights_chains_check(
    grants: &[u8],
    loans: &[u32],
    who: u32,
    on: u32,
    right: u32,
    chain: &mut [u8],
    depth: &mut u32,
    persons: &mut u32,
) -> u32
    ensures { ChainAnswers (images grants.now loans.now) chain.old who on right result
        depth.new persons.new chain.new (images grants.now loans.now) }
{
    let c = chains::check(grants, loans, who, on, right, chain);
    let found = reply::values(c);
    *depth = found.0;
    *persons = found.1;
    number(c)
}

#[unsafe(no_mangle)]
pub extern "C" fn rights_chains_inspect(grants: &[u8], loans: &[u32]) -> u32
    ensures { ChainInspects (images grants.now loans.now) result
        (images grants.now loans.now) }
{
    number(chains::inspect(grants, loans))
}
