// A line run on the three units, and the three units made fresh.

#![tactic(auto)]

ghost use Rattle.std.specs.Prelude.{Some};
ghost use Rattle.lines.specs.declared.Request.TheVariants.{Run, Ask};
ghost use Rattle.output.specs.Output.{lent_buffer};
ghost use Rattle.reader.specs.Replies.{units_in, Replies, Starts};

use layouts::flat::FlatUnit;
use lines::Request;
use lists::Lists;
use model::{Command, Refusal};
use output::reply::Reply;
use rows::Rows;

// A reply, and the chain buffer after the line.
#[derive(Clone, Copy)]
pub struct Replied {
    pub reply: Reply,
    pub via: [u8; 8],
}

// Makes the three units fresh; number 1 alone, and then nothing is changed.
pub fn fresh(
    list: &mut [u64],
    row: &mut [u8],
    grants: &mut [u8],
    loans: &mut [u32],
) -> Result<(), Refusal>
    ensures { Starts (units_in list.old row.old grants.old loans.old) result
        (units_in list.new row.new grants.new loans.new) }
{
    if list.len() != Lists::WORDS {
        return Err(Refusal::WrongLength);
    }
    if row.len() != Rows::BYTES {
        return Err(Refusal::WrongLength);
    }
    if grants.len() != grants::Grants::BYTES {
        return Err(Refusal::WrongLength);
    }
    if loans.len() != loans::Loans::WORDS {
        return Err(Refusal::WrongLength);
    }
    Lists::freshen(list)?;
    Rows::freshen(row)?;
    chains::fresh(grants, loans)
}

// Offers a command to each unit.
fn run_command(
    list: &mut [u64],
    row: &mut [u8],
    grants: &mut [u8],
    loans: &mut [u32],
    c: Command,
) -> Reply
    ensures { Replies (units_in list.old row.old grants.old loans.old) (Some (Run c)) result
        lent_buffer (units_in list.new row.new grants.new loans.new) }
{
    let l = Lists::offer(list, c);
    let r = Rows::offer(row, c);
    let a = chains::offer(grants, loans, c);
    Reply::of_command(c, l, r, a)
}

// Asks each unit, the chain unit with a chain buffer of its own.
fn run_check(
    list: &[u64],
    row: &[u8],
    grants: &[u8],
    loans: &[u32],
    who: u32,
    on: u32,
    right: u32,
) -> Replied
    ensures { Replies (units_in list.now row.now grants.now loans.now)
        (Some (Ask who on right)) result.reply result.via (units_in list.now row.now grants.now loans.now) }
{
    let mut via = [0u8; 8];
    let l = Lists::check(list, who, on, right);
    let r = Rows::check(row, who, on, right);
    let c = chains::check(grants, loans, who, on, right, &mut via);
    let reply = Reply::of_check(l, r, c);
    Replied { reply, via }
}

// Runs what a line asks for on the three units.
pub fn run(
    list: &mut [u64],
    row: &mut [u8],
    grants: &mut [u8],
    loans: &mut [u32],
    line: Option<Request>,
) -> Replied
    ensures { Replies (units_in list.old row.old grants.old loans.old) line result.reply
        result.via (units_in list.new row.new grants.new loans.new) }
{
    match line {
        Some(Request::Run(c)) => {
            let reply = run_command(list, row, grants, loans, c);
            let via = [0u8; 8];
            Replied { reply, via }
        }
        Some(Request::Ask { who, on, right }) => run_check(
            list, row, grants, loans, who, on, right,
        ),
        None => {
            let reply = Reply::malformed();
            let via = [0u8; 8];
            Replied { reply, via }
        }
    }
}
