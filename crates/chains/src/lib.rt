// The chain unit: grants with depths in an image of 32,776 bytes, the shift and the loans in an image of 1,025 words, the ten commands
// over both, and the check that follows carrying loans through anyone with depth left.

#![tactic(auto)]

ghost use Rattle.std.specs.Prelude.{◌≡◌, true, not, ◌&&◌, ◌+◌, ◌*◌, ◌≤◌, ◌<◌, length};
ghost use Rattle.bits.specs.Sets.{count};
ghost use Rattle.model.specs.declared.Command.TheVariants.{Create, Delete, Allow, Withdraw, Lend, Recall, AllowSet, Drop, Sweep};
ghost use Rattle.model.specs.declared.Command.TheVariants as command;
ghost use Rattle.model.specs.Commands.{Ranged, raw_of};
ghost use Rattle.model.specs.Answers.{number_of, Returns, found_said};
ghost use Rattle.layouts.specs.Machine.{judged_in, RanCounting};
ghost use Rattle.model.specs.Journal.{grant, loan_in};
ghost use Rattle.layouts.specs.Layouts.{grant_bytes, held};
ghost use Rattle.delegation.specs.Loans.{word_of, word_past, count_of, shift_in, used, loans_kept, loans_at};
ghost use Rattle.delegation.specs.Search.{found_of, chain_of};
ghost use Rattle.delegation.specs.Images.{images};
ghost use Rattle.delegation.specs.ChainUnit.{chain_unit, chain_in_order, chain_guarded, chain_facts, chain_dropped, chain_withdrawn, chain_after, chain_count, ChainChecks, ChainInspects, ChainFreshens};
ghost use Rattle.chains.specs.InShape.{InShape};
ghost use Rattle.chains.specs.Ready.{Ready, Accepted, Ending, without_item, without_loans};

use delegation::loan;
use grants::Grants;
use layouts::{admit, live};
use loans::{Loans, Rule};
use model::{
    BestChain, Command, Depth, Facts, Item, Question, Refusal, Right, Shift, Typed, Verb, judge,
};

// The bytes of a chain buffer.
const PERSONS: usize = 8;

// The images, where they have their lengths.
type GrantBytes = [u8; Grants::BYTES];

type LoanWords = [u32; Loans::WORDS];

// Where the grants of the first item and right begin, after the live set.
const ROLL: usize = 8;

// The grant bytes of an item and right, one for each person.
const HOLDERS: usize = 64;

// How many loans an image holds.
const MANY: usize = 1024;

// How many have room in a small buffer, which is sooner made.
const FEW: usize = 64;

// Number 1 alone, of both buffers before either is written: whatever they held is overwritten. The small state that is written is that of
// `Grants::fresh` and `Loans::fresh`.
pub fn fresh(grants: &mut [u8], loans: &mut [u32]) -> Result<(), Refusal>
    ensures { ChainFreshens (images grants.old loans.old) result
        (images grants.new loans.new) }
{
    if grants.len() != Grants::BYTES {
        return Err(Refusal::WrongLength);
    }
    if loans.len() != Loans::WORDS {
        return Err(Refusal::WrongLength);
    }
    grants::fresh(grants);
    loans::clear(loans);
    Ok(())
}

// Number 2.
fn order(grants: &GrantBytes, loans: &LoanWords) -> Result<(), Refusal>
    ensures { number_of result ≡ chain_guarded (images grants.now loans.now) true 0 }
{
    let masks = live::masks(grants);
    if !grants::in_order(grants, &masks) {
        return Err(Refusal::NotInOrder);
    }
    if !loans::order::in_order(loans, &masks) {
        return Err(Refusal::NotInOrder);
    }
    Ok(())
}

// The word of the loan that a command names.
fn loan_word(t: Typed) -> u32
    requires { Ranged (raw_of t) }
    ensures { result ≡ word_of (loan_in (raw_of t)) }
{
    loan::word(t.by, t.on, t.right, t.to, t.depth, t.shift)
}

// What the table of answers asks of the images.
fn facts(grants: &GrantBytes, loans: &LoanWords, t: Typed) -> Facts
    requires { Ready (images grants.now loans.now) (raw_of t) }
    ensures { result ≡ chain_facts (images grants.now loans.now) (raw_of t) }
{
    Facts {
        by: live::is_live(grants, t.by),
        on: live::is_live(grants, t.on),
        to: live::is_live(grants, t.to),
        members: live::are_live(grants, t.set),
        edits: grants::holds(grants, t.by, t.on, Right::edit()),
        back: loans::shift::goes_back(loans, t.shift),
        past: loans::shift::is_past(loans, t.shift),
        full: loans::is_full(loans, loan_word(t)),
    }
}

// The item's grants and name, then the loans that name it.
fn drop_item(grants: &mut GrantBytes, loans: &mut LoanWords, on: Item)
    requires { on.0 < 64 }
    ensures { images grants.new loans.new ≡ without_item (images grants.old loans.old)
        on.0 }
{
    grants::drop_item(grants, on);
    loans::retain(loans, Rule::Naming(on));
}

// The shift into the image.
fn set_shift(loans: &mut LoanWords, to: Shift)
    requires { to.0 ≤ 255 }
    ensures { loans.new ≡ loans_at to.0 loans.old }
{
    loans::shift::set(loans, to);
}

// Ends the loans that the person made on the item, of that right, if a last grant there has ended: had says that there was one before.
fn end_loans(
    grants: &GrantBytes,
    loans: &mut LoanWords,
    had: bool,
    to: Item,
    on: Item,
    right: Right,
)
    requires { Ending loans.old to.0 on.0 right.0 }
    ensures { loans.new
        ≡ without_loans (had && not (held grant_bytes grants.now to.0 on.0 right.0)) to.0 on.0 right.0
        loans.old }
{
    if !had {
        return;
    }
    if grants::holds(grants, to, on, right) {
        return;
    }
    let theirs = Rule::From {
        lender: to,
        on,
        right,
    };
    if !loans::ends(loans, theirs) {
        return;
    }
    loans::retain(loans, theirs);
}

// One depth ends, and the person's loans there with the last.
fn drop_grant(
    grants: &mut GrantBytes,
    loans: &mut LoanWords,
    to: Item,
    on: Item,
    right: Right,
    depth: Depth,
)
    requires { Ending loans.old to.0 on.0 right.0 × (depth.0 < 8) }
    ensures { images grants.new loans.new ≡ chain_dropped (images grants.old loans.old)
        (grant to.0 on.0 right.0 depth.0) }
{
    let had = grants::holds(grants, to, on, right);
    grants::drop_grant(grants, to, on, right, depth);
    end_loans(grants, loans, had, to, on, right);
}

// Every depth ends, and the person's loans there, if there was a depth: the eight drops as one.
fn drop_grants(grants: &mut GrantBytes, loans: &mut LoanWords, to: Item, on: Item, right: Right)
    requires { Ending loans.old to.0 on.0 right.0 × (chain_in_order (images grants.old loans.old) ≡ true) }
    ensures { images grants.new loans.new ≡ chain_withdrawn (images grants.old loans.old)
        to.0 on.0 right.0 }
{
    let had = grants::holds(grants, to, on, right);
    grants::drop_grants(grants, to, on, right);
    end_loans(grants, loans, had, to, on, right);
}

// Ends the loans that are past their last shift, and says how many those were.
fn end_past(loans: &mut LoanWords) -> u32
    requires { shift_in loans.old ≤ 255 }
    ensures { (loans.new
        ≡ loans_kept (λ w. not (word_past (shift_in loans.old) w)) loans.old)
        × (result ≡ count (word_past (shift_in loans.old)) (used loans.old)) }
{
    let shift = loans::shift::present(loans);
    loans::retain(loans, Rule::Past(shift))
}

// What an accepted command does, and what it counts.
fn apply(grants: &mut GrantBytes, loans: &mut LoanWords, t: Typed) -> u32
    requires { Accepted (images grants.old loans.old) (raw_of t) }
    ensures { (images grants.new loans.new ≡ chain_after (images grants.old loans.old)
        (raw_of t)) × (result ≡ chain_count (images grants.old loans.old) (raw_of t).verb) }
{
    match t.verb {
        Verb::Create => grants::put_item(grants, t.by, t.on),
        Verb::Delete => drop_item(grants, loans, t.on),
        Verb::Allow => grants::put_grant(grants, t.to, t.on, t.right, t.depth),
        Verb::Withdraw => drop_grants(grants, loans, t.to, t.on, t.right),
        Verb::Lend => loans::insert(loans, loan_word(t)),
        Verb::Recall => loans::remove(loans, loan_word(t)),
        Verb::Shift => set_shift(loans, t.shift),
        Verb::AllowSet => grants::put_grants(grants, t.set, t.on, t.right, t.depth),
        Verb::Drop => drop_grant(grants, loans, t.to, t.on, t.right, t.depth),
        Verb::Sweep => return end_past(loans),
    }
    0
}

// Numbers 4 to 10 and 12 to 14, and what follows. The images are two parameters here and above: a struct of two mutable borrows needs one
// clause more in every method, that it still has the same two.
fn settle(grants: &mut GrantBytes, loans: &mut LoanWords, t: Typed) -> Result<u32, Refusal>
    requires { Ready (images grants.old loans.old) (raw_of t) }
    ensures { Returns (judged_in chain_unit (images grants.old loans.old) (raw_of t)) result
        (images grants.new loans.new) }
{
    let answer = judge(t, facts(grants, loans, t));
    answer?;
    Ok(apply(grants, loans, t))
}

// Any command, from the numbers that arrived; a chain unit has them all.
pub fn offer(grants: &mut [u8], loans: &mut [u32], c: Command) -> Result<u32, Refusal>
    ensures { RanCounting chain_unit (images grants.old loans.old) c result
        (images grants.new loans.new) }
{
    let Some(grants) = grants.as_mut_array::<{ Grants::BYTES }>() else {
        return Err(Refusal::WrongLength);
    };
    let Some(loans) = loans.as_mut_array::<{ Loans::WORDS }>() else {
        return Err(Refusal::WrongLength);
    };
    let t = admit::command(order(grants, loans), c)?;
    settle(grants, loans, t)
}

// The ten commands, each a function of its own as callers name it; five have the names of a flat unit's (`layouts::flat`), over two images
// and with a count.
pub fn create(grants: &mut [u8], loans: &mut [u32], by: u32, on: u32) -> Result<u32, Refusal>
    ensures { RanCounting chain_unit (images grants.old loans.old) (Create by on) result
        (images grants.new loans.new) }
{
    offer(grants, loans, Command::Create { by, on })
}

pub fn delete(grants: &mut [u8], loans: &mut [u32], by: u32, on: u32) -> Result<u32, Refusal>
    ensures { RanCounting chain_unit (images grants.old loans.old) (Delete by on) result
        (images grants.new loans.new) }
{
    offer(grants, loans, Command::Delete { by, on })
}

pub fn allow(
    grants: &mut [u8],
    loans: &mut [u32],
    by: u32,
    to: u32,
    on: u32,
    right: u32,
    depth: u32,
) -> Result<u32, Refusal>
    ensures { RanCounting chain_unit (images grants.old loans.old) (Allow by to on right depth) result
        (images grants.new loans.new) }
{
    offer(
        grants,
        loans,
        Command::Allow {
            by,
            to,
            on,
            right,
            depth,
        },
    )
}

// What an allow for each member of the set does, in any order, or nothing.
pub fn allow_set(
    grants: &mut [u8],
    loans: &mut [u32],
    by: u32,
    set: u64,
    on: u32,
    right: u32,
    depth: u32,
) -> Result<u32, Refusal>
    ensures { RanCounting chain_unit (images grants.old loans.old) (AllowSet by set on right depth) result
        (images grants.new loans.new) }
{
    offer(
        grants,
        loans,
        Command::AllowSet {
            by,
            set,
            on,
            right,
            depth,
        },
    )
}

// Every depth that the person has there; where there was one, the loans that the person made there end too.
pub fn withdraw(
    grants: &mut [u8],
    loans: &mut [u32],
    by: u32,
    to: u32,
    on: u32,
    right: u32,
) -> Result<u32, Refusal>
    ensures { RanCounting chain_unit (images grants.old loans.old) (Withdraw by to on right) result
        (images grants.new loans.new) }
{
    offer(grants, loans, Command::Withdraw { by, to, on, right })
}

// One depth alone, and with the last the loans that the person made there; withdraw is this for each depth.
pub fn drop(
    grants: &mut [u8],
    loans: &mut [u32],
    by: u32,
    to: u32,
    on: u32,
    right: u32,
    depth: u32,
) -> Result<u32, Refusal>
    ensures { RanCounting chain_unit (images grants.old loans.old) (Drop by to on right depth) result
        (images grants.new loans.new) }
{
    offer(
        grants,
        loans,
        Command::Drop {
            by,
            to,
            on,
            right,
            depth,
        },
    )
}

pub fn lend(
    grants: &mut [u8],
    loans: &mut [u32],
    by: u32,
    to: u32,
    on: u32,
    right: u32,
    depth: u32,
    last: u32,
) -> Result<u32, Refusal>
    ensures { RanCounting chain_unit (images grants.old loans.old) (Lend by to on right depth last) result
        (images grants.new loans.new) }
{
    offer(
        grants,
        loans,
        Command::Lend {
            by,
            to,
            on,
            right,
            depth,
            last,
        },
    )
}

pub fn recall(
    grants: &mut [u8],
    loans: &mut [u32],
    by: u32,
    to: u32,
    on: u32,
    right: u32,
    depth: u32,
    last: u32,
) -> Result<u32, Refusal>
    ensures { RanCounting chain_unit (images grants.old loans.old) (Recall by to on right depth last) result
        (images grants.new loans.new) }
{
    offer(
        grants,
        loans,
        Command::Recall {
            by,
            to,
            on,
            right,
            depth,
            last,
        },
    )
}

pub fn shift(grants: &mut [u8], loans: &mut [u32], by: u32, shift: u32) -> Result<u32, Refusal>
    ensures { RanCounting chain_unit (images grants.old loans.old) (command.Shift by shift) result
        (images grants.new loans.new) }
{
    offer(grants, loans, Command::Shift { by, now: shift })
}

// Ends every loan that is past its last shift; the count says how many those were.
pub fn sweep(grants: &mut [u8], loans: &mut [u32], by: u32) -> Result<u32, Refusal>
    ensures { RanCounting chain_unit (images grants.old loans.old) (Sweep by) result
        (images grants.new loans.new) }
{
    offer(grants, loans, Command::Sweep { by })
}

// The answer to a check, and its chain, with room in `out` for the loans in use. The carrying loans of the item and right are picked once;
// the search is given these, the grant bytes of the item and right, and nothing else.
fn answer_in(
    out: &mut [u32],
    grants: &GrantBytes,
    loans: &LoanWords,
    q: Question,
    chain: &mut [u8; PERSONS],
) -> Option<BestChain>
    requires { InShape loans.now q.who.0 q.on.0 q.right.0
        × (count_of loans.now ≤ length out.old) }
    ensures { (result ≡ found_said (found_of grants.now loans.now (8 * q.on.0 + q.right.0) q.who.0))
        × (chain.new ≡ chain_of grants.now loans.now (8 * q.on.0 + q.right.0) q.who.0) }
{
    let m = picking::pick(out, loans, q.on, q.right);
    let base = ROLL + HOLDERS * loan::key(q.on, q.right) as usize;
    search::best(&grants[base..base + HOLDERS], &out[..m], q.who, chain)
}

// The same, with a buffer by the number of loans in use.
fn answer(
    grants: &GrantBytes,
    loans: &LoanWords,
    q: Question,
    chain: &mut [u8; PERSONS],
) -> Option<BestChain>
    requires { InShape loans.now q.who.0 q.on.0 q.right.0 }
    ensures { (result ≡ found_said (found_of grants.now loans.now (8 * q.on.0 + q.right.0) q.who.0))
        × (chain.new ≡ chain_of grants.now loans.now (8 * q.on.0 + q.right.0) q.who.0) }
{
    let header = loans::header_of(loans);
    if header.count as usize <= FEW {
        let mut few = [0u32; FEW];
        return answer_in(&mut few, grants, loans, q, chain);
    }
    let mut many = [0u32; MANY];
    answer_in(&mut many, grants, loans, q, chain)
}

// Whether a chain of grants and carrying loans leads to the person, with the greatest depth that any ends with. Of those that do, one with
// the fewest persons is written into the chain buffer.
pub fn check(
    grants: &[u8],
    loans: &[u32],
    who: u32,
    on: u32,
    right: u32,
    chain: &mut [u8],
) -> Result<Option<BestChain>, Refusal>
    ensures { ChainChecks (images grants.now loans.now) chain.old who on right result
        chain.new (images grants.now loans.now) }
{
    let Some(grants) = grants.as_array::<{ Grants::BYTES }>() else {
        return Err(Refusal::WrongLength);
    };
    let Some(loans) = loans.as_array::<{ Loans::WORDS }>() else {
        return Err(Refusal::WrongLength);
    };
    let Some(chain) = chain.as_mut_array::<PERSONS>() else {
        return Err(Refusal::WrongLength);
    };
    let q = admit::check(order(grants, loans), who, on, right)?;
    Ok(answer(grants, loans, q, chain))
}

// Numbers 1 and 2 alone, for a caller that reads the images itself.
pub fn inspect(grants: &[u8], loans: &[u32]) -> Result<(), Refusal>
    ensures { ChainInspects (images grants.now loans.now) result
        (images grants.now loans.now) }
{
    let Some(grants) = grants.as_array::<{ Grants::BYTES }>() else {
        return Err(Refusal::WrongLength);
    };
    let Some(loans) = loans.as_array::<{ Loans::WORDS }>() else {
        return Err(Refusal::WrongLength);
    };
    order(grants, loans)
}
