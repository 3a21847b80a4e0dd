// The ticket unit for C.
ghost use Rattle.ticketing.specs.declared.TicketCommand.TheVariants.{Create, Generate, Pass, Remove, Delete};
ghost use Rattle.rights_c.specs.Exports.{TicketGives, TicketGenerates, TicketFreshens, TicketAnswers, TicketInspects};

#[unsafe(no_mangle)]
pub extern "C" fn rights_tickets_fresh(image: &mut [u64]) -> u32
    ensures { TicketFreshens image.old result image.new }
{
    model::number(tickets::fresh(image))
}

#[unsafe(no_mangle)]
pub extern "C" fn rights_tickets_create(image: &mut [u64], by: u32, on: u32) -> u32
    ensures { TicketGives image.old (Create by on) result image.new }
{
    model::number(tickets::create(image, by, on))
}

#[unsafe(no_mangle)]
pub extern "C" fn rights_tickets_generate(
    image: &mut [u64],
    by: u32,
    on: u32,
    right: u32,
    number: &mut u32,
) -> u32
    ensures { TicketGenerates image.old (Generate by on right) result number.new image.new }
{
    let given = tickets::generate(image, by, on, right);
    *number = given.unwrap_or(0);
    model::number(given)
}

#[unsafe(no_mangle)]
pub extern "C" fn rights_tickets_pass(image: &mut [u64], by: u32, to: u32, number: u32) -> u32
    ensures { TicketGives image.old (Pass by to number) result image.new }
{
    model::number(tickets::pass(image, by, to, number))
}

#[unsafe(no_mangle)]
pub extern "C" fn rights_tickets_remove(image: &mut [u64], by: u32, number: u32) -> u32
    ensures { TicketGives image.old (Remove by number) result image.new }
{
    model::number(tickets::remove(image, by, number))
}

#[unsafe(no_mangle)]
pub extern "C" fn rights_tickets_delete(image: &mut [u64], by: u32, on: u32) -> u32
    ensures { TicketGives image.old (Delete by on) result image.new }
{
    model::number(tickets::delete(image, by, on))
}

#[unsafe(no_mangle)]
pub extern "C" fn rights_tickets_check(
    image: &[u64],
    who: u32,
    on: u32,
    right: u32,
    yes: &mut u32,
) -> u32
    ensures { TicketAnswers image.now who on right result yes.new image.now }
{
    let c = tickets::check(image, who, on, right);
    *yes = c.unwrap_or(false) as u32;
    model::number(c)
}

#[unsafe(no_mangle)]
pub extern "C" fn rights_tickets_inspect(image: &[u64]) -> u32
    ensures { TicketInspects image.now result image.now }
{
    model::number(tickets::inspect(image))
}
