// Numbers 1 to 3, which come before the table of answers: of a command and of a check, in every unit alike.
ghost use Rattle.std.specs.Prelude.{◌≡◌};
ghost use Rattle.layouts.specs.Admission.{admission, command_admission, check_admission};

use model::{Command, Question, Refusal, Typed};

// What is within its limits; order: what numbers 1 and 2 say of the lent buffers.
fn admission<A: Copy>(order: Result<(), Refusal>, within: Option<A>) -> Result<A, Refusal>
    ensures { result ≡ admission order within }
{
    order?;
    within.ok_or(Refusal::OutOfRange)
}

// Of any command.
pub fn command(order: Result<(), Refusal>, c: Command) -> Result<Typed, Refusal>
    ensures { result ≡ command_admission order c }
{
    admission(order, c.within())
}

// Of the check of who on that item, for that right.
pub fn check(order: Result<(), Refusal>, who: u32, on: u32, right: u32) -> Result<Question, Refusal>
    ensures { result ≡ check_admission order who on right }
{
    admission(order, Question::read(who, on, right))
}
