// The lent slice of ticket structs for C.
ghost use Rattle.records.specs.Records.{Reads, Looks, Answers};

use ticketing::Ticket;

// The records of an image.
#[unsafe(no_mangle)]
pub extern "C" fn rights_tickets_records(image: &[u64], tickets: &mut [Ticket]) -> u32
    ensures { Reads image.now tickets.old result tickets.new image.now }
{
    let r = records::judge(image, tickets.len());
    for k in 0..r.count {
        tickets[k] = records::ticket_of(image, k);
    }
    r.number
}

// The record at a place.
#[unsafe(no_mangle)]
pub extern "C" fn rights_tickets_at(tickets: &[Ticket], place: usize) -> Ticket
    ensures { Looks tickets.now place result tickets.now }
{
    if place < tickets.len() {
        return tickets[place];
    }
    records::no_ticket()
}

// The check over the records.
#[unsafe(no_mangle)]
pub extern "C" fn rights_tickets_check_records(
    tickets: &[Ticket],
    who: u32,
    on: u32,
    right: u32,
    yes: &mut u32,
) -> u32
    ensures { Answers tickets.now who on right result yes.new tickets.now }
{
    let q = records::ask(tickets.len(), who, on, right);
    let mut found = 0;
    for k in 0..q.count {
        found = records::look(q, found, tickets[k]);
    }
    *yes = found;
    q.number
}
