// A flat unit: access control lists, or capability rows. Its image tells of each person, item and right whether the person has the right
// on the item; a grant has no depth there. What a unit does stands here, once. A unit gives the layout of its image, and what reads and
// writes the cells.
ghost use Rattle.std.specs.Prelude.{◌≡◌, ◌*◌, ◌^◌, ◌<◌, List, ℕ, length};
ghost use Rattle.std.specs.Mem.{type_size};
ghost use Rattle.model.specs.declared.Command.TheVariants.{Create, Delete, Allow, Withdraw, AllowSet};
ghost use Rattle.bits.specs.Sets.{all};
ghost use Rattle.model.specs.Commands.{Ranged, raw_of, members_of};
ghost use Rattle.model.specs.Answers.{number_of};
ghost use Rattle.model.specs.Journal.{grant};
ghost use Rattle.layouts.specs.Machine.{Judged, Ran, Offers};
ghost use Rattle.layouts.specs.Layouts.{Layout, live_in, held, is_in_order, guarded, facts_of, created, deleted, allowed, allowed_set, withdrawn, after, flat_unit, Inspects, Checks, fresh_image, Freshens};
ghost use Rattle.layouts.specs.Subjects.{Tells, subjects_of};
ghost use Rattle.layouts.specs.Laws.{Flat};

use crate::admit;
use model::{Command, Edit, Facts, Item, ItemSet, Refusal, Right, Typed, judge};

pub trait FlatUnit<const CELLS: usize> {
    // A cell of the image: a word, or a byte.
    type Cell;

    // Where an image has the bit of each grant.
    ghost layout: { Layout };

    // The cells as numbers.
    ghost cells: { List Self.Cell → List ℕ };

    // A fresh image, whatever the buffer held.
    fn start(image: &mut [Self::Cell; CELLS])
        ensures { cells image.new ≡ fresh_image layout };

    // The root item lives, and no dead item is named.
    fn in_order(image: &[Self::Cell; CELLS]) -> bool
        ensures { result ≡ is_in_order layout (cells image.now) };

    fn lives(image: &[Self::Cell; CELLS], i: Item) -> bool
        requires { i.0 < 64 }
        ensures { result ≡ live_in layout (cells image.now) i.0 };

    // Whether every member of the set lives.
    fn are_live(image: &[Self::Cell; CELLS], set: ItemSet) -> bool
        ensures { result ≡ all (live_in layout (cells image.now)) (members_of set.0) };

    // What reads and writes a place stays with the unit: the proof of a writer needs that every cell is below 2 ^ 64, or 2 ^ 8, and a law
    // cannot say that of a cell.
    fn holds(image: &[Self::Cell; CELLS], who: Item, on: Item, right: Right) -> bool
        requires { (who.0 < 64) × (on.0 < 64) × (right.0 < 8) }
        ensures { result ≡ held layout (cells image.now) who.0 on.0 right.0 };

    // Every person with at least one grant.
    fn persons(image: &[Self::Cell; CELLS]) -> u64
        ensures { result ≡ subjects_of layout (cells image.now) };

    // The item, and an edit grant on it to its creator.
    fn put_item(image: &mut [Self::Cell; CELLS], by: Item, on: Item)
        requires { (by.0 < 64) × (on.0 < 64) }
        ensures { cells image.new ≡ created layout (cells image.old) by.0 on.0 };

    // The item, and every grant to it and on it, so that a later item of this number inherits nothing.
    fn drop_item(image: &mut [Self::Cell; CELLS], on: Item)
        requires { on.0 < 64 }
        ensures { cells image.new ≡ deleted layout (cells image.old) on.0 };

    // A depth was checked, and is dropped.
    fn put_grant(image: &mut [Self::Cell; CELLS], to: Item, on: Item, right: Right)
        requires { (to.0 < 64) × (on.0 < 64) × (right.0 < 8) }
        ensures { cells image.new ≡ allowed layout (cells image.old) (grant to.0 on.0 right.0 0) };

    // A grant to every member of the set.
    fn put_grants(image: &mut [Self::Cell; CELLS], set: ItemSet, on: Item, right: Right)
        requires { (on.0 < 64) × (right.0 < 8) }
        ensures { cells image.new ≡ allowed_set layout (cells image.old) set.0 on.0 right.0 0 };

    fn drop_grant(image: &mut [Self::Cell; CELLS], to: Item, on: Item, right: Right)
        requires { (to.0 < 64) × (on.0 < 64) × (right.0 < 8) }
        ensures { cells image.new ≡ withdrawn layout (cells image.old) to.0 on.0 right.0 };

    // A cell is a number, an image has as many as its layout says and fits memory, and a place has no depth.
    ghost lengths: { (s : List Self.Cell) → length (cells s) ≡ length s };

    ghost sized: { layout.cells ≡ CELLS };

    ghost fits: { CELLS * type_size Self.Cell.row < 2 ^ 63 };

    ghost flat: { Flat layout };

    // Number 1 alone: whatever the buffer held is overwritten.
    final fn freshen(image: &mut [Self::Cell]) -> Result<(), Refusal>
        ensures { Freshens layout (cells image.old) result (cells image.new) }
    {
        let Some(image) = image.as_mut_array::<CELLS>() else {
            return Err(Refusal::WrongLength);
        };
        Self::start(image);
        Ok(())
    }

    final fn create(image: &mut [Self::Cell], by: u32, on: u32) -> Result<(), Refusal>
        ensures { Ran (flat_unit layout) (cells image.old) (Create by on) result (cells image.new) }
    {
        run::<CELLS, Self>(image, Command::Create { by, on })
    }

    final fn delete(image: &mut [Self::Cell], by: u32, on: u32) -> Result<(), Refusal>
        ensures { Ran (flat_unit layout) (cells image.old) (Delete by on) result (cells image.new) }
    {
        run::<CELLS, Self>(image, Command::Delete { by, on })
    }

    final fn allow(
        image: &mut [Self::Cell],
        by: u32,
        to: u32,
        on: u32,
        right: u32,
        depth: u32,
    ) -> Result<(), Refusal>
        ensures { Ran (flat_unit layout) (cells image.old) (Allow by to on right depth) result (cells image.new) }
    {
        let c = Command::Allow {
            by,
            to,
            on,
            right,
            depth,
        };
        run::<CELLS, Self>(image, c)
    }

    // What an allow for each member of the set does, in any order, or nothing.
    final fn allow_set(
        image: &mut [Self::Cell],
        by: u32,
        set: u64,
        on: u32,
        right: u32,
        depth: u32,
    ) -> Result<(), Refusal>
        ensures { Ran (flat_unit layout) (cells image.old) (AllowSet by set on right depth) result (cells image.new) }
    {
        let c = Command::AllowSet {
            by,
            set,
            on,
            right,
            depth,
        };
        run::<CELLS, Self>(image, c)
    }

    final fn withdraw(
        image: &mut [Self::Cell],
        by: u32,
        to: u32,
        on: u32,
        right: u32,
    ) -> Result<(), Refusal>
        ensures { Ran (flat_unit layout) (cells image.old) (Withdraw by to on right) result (cells image.new) }
    {
        run::<CELLS, Self>(image, Command::Withdraw { by, to, on, right })
    }

    // For a caller that reads commands: any of them, passed over where a flat unit lacks it.
    final fn offer(image: &mut [Self::Cell], c: Command) -> Option<Result<(), Refusal>>
        ensures { Offers (flat_unit layout) (cells image.old) c result (cells image.new) }
    {
        if !c.is_flat() {
            return None;
        }
        Some(run::<CELLS, Self>(image, c))
    }

    // Whether the person has that right on the item.
    final fn check(image: &[Self::Cell], who: u32, on: u32, right: u32) -> Result<bool, Refusal>
        ensures { Checks layout (cells image.now) who on right result (cells image.now) }
    {
        let Some(image) = image.as_array::<CELLS>() else {
            return Err(Refusal::WrongLength);
        };
        let q = admit::check(order::<CELLS, Self>(image), who, on, right)?;
        Ok(Self::holds(image, q.who, q.on, q.right))
    }

    // Every person with at least one grant (document 01's 'holder roll').
    final fn subjects(image: &[Self::Cell]) -> Result<u64, Refusal>
        ensures { Tells layout (cells image.now) result (cells image.now) }
    {
        let Some(image) = image.as_array::<CELLS>() else {
            return Err(Refusal::WrongLength);
        };
        order::<CELLS, Self>(image)?;
        Ok(Self::persons(image))
    }

    // Numbers 1 and 2 alone, for a caller that reads the image itself.
    final fn inspect(image: &[Self::Cell]) -> Result<(), Refusal>
        ensures { Inspects layout (cells image.now) result (cells image.now) }
    {
        let Some(image) = image.as_array::<CELLS>() else {
            return Err(Refusal::WrongLength);
        };
        order::<CELLS, Self>(image)
    }
}

// Number 2, of an image that has its length.
fn order<const N: usize, U: FlatUnit<N>>(image: &[U::Cell; N]) -> Result<(), Refusal>
    ensures { number_of result ≡ guarded U.layout (U.cells image.now) 0 }
{
    if U::in_order(image) {
        Ok(())
    } else {
        Err(Refusal::NotInOrder)
    }
}

// What the table asks of this image.
fn facts<const N: usize, U: FlatUnit<N>>(image: &[U::Cell; N], t: Typed) -> Facts
    requires { Ranged (raw_of t) }
    ensures { result ≡ facts_of U.layout (U.cells image.now) (raw_of t) }
{
    Facts {
        by: U::lives(image, t.by),
        on: U::lives(image, t.on),
        to: U::lives(image, t.to),
        members: U::are_live(image, t.set),
        edits: U::holds(image, t.by, t.on, Right::edit()),
        back: false,
        past: false,
        full: false,
    }
}

// What an accepted command does to the image: its edit alone.
fn apply<const N: usize, U: FlatUnit<N>>(image: &mut [U::Cell; N], t: Typed)
    requires { Ranged (raw_of t) }
    ensures { U.cells image.new ≡ after U.layout (U.cells image.old) (raw_of t) }
{
    match t.edit {
        Some(Edit::Create) => U::put_item(image, t.by, t.on),
        Some(Edit::Delete) => U::drop_item(image, t.on),
        Some(Edit::Allow) => U::put_grant(image, t.to, t.on, t.right),
        Some(Edit::Withdraw) => U::drop_grant(image, t.to, t.on, t.right),
        Some(Edit::AllowSet) => U::put_grants(image, t.set, t.on, t.right),
        None => {}
    }
}

// Numbers 4 to 10 and 14, and what follows.
fn settle<const N: usize, U: FlatUnit<N>>(image: &mut [U::Cell; N], t: Typed) -> Result<(), Refusal>
    requires { Ranged (raw_of t) }
    ensures { Judged (flat_unit U.layout) (U.cells image.old) (raw_of t) (number_of result) (U.cells image.new) }
{
    judge(t, facts::<N, U>(image, t))?;
    apply::<N, U>(image, t);
    Ok(())
}

// Any command, from the numbers that arrived. Private: a unit that lacks a command must not answer it.
fn run<const N: usize, U: FlatUnit<N>>(image: &mut [U::Cell], c: Command) -> Result<(), Refusal>
    ensures { Ran (flat_unit U.layout) (U.cells image.old) c result (U.cells image.new) }
{
    let Some(image) = image.as_mut_array::<N>() else {
        return Err(Refusal::WrongLength);
    };
    let t = admit::command(order::<N, U>(image), c)?;
    settle::<N, U>(image, t)
}
