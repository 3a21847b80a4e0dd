// Tickets: the record of one, and the commands of a ticket unit.

#![tactic(auto)]

// A ticket of document 02 (K6): its number, the item and the right that it opens, who issued it, and the set of its holders, bit i for
// item i. It lives while it has a holder; the record of a place without a live ticket is all zero.
#[repr(C)]
#[derive(Clone, Copy)]
pub struct Ticket {
    pub number: u32,
    pub item: u8,
    pub right: u8,
    pub issuer: u16,
    pub holders: u64,
}

// A command with the numbers that arrived.
#[derive(Clone, Copy)]
pub enum TicketCommand {
    Create { by: u32, on: u32 },
    Generate { by: u32, on: u32, right: u32 },
    Pass { by: u32, to: u32, number: u32 },
    Remove { by: u32, number: u32 },
    Delete { by: u32, on: u32 },
}
