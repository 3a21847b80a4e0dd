// What the three units reply to a line.
ghost use Rattle.std.specs.Prelude.{◌≡◌};
ghost use Rattle.std.specs.Result.{result_unwrap_or};
ghost use Rattle.model.specs.Answers.{number_of, checked_yes, found_in};
ghost use Rattle.output.specs.declared.reply.Said.TheVariants.{Number};
ghost use Rattle.output.specs.Output.{reply, malformed_reply, offered_of, command_tail, check_said, check_tail};

use model::{BestChain, Command, Refusal, number};

// A unit's field: its number, yes or no, or that it passes the command over. A number is what stands in the field, of whatever it is one.
#[derive(Clone, Copy)]
pub enum Said {
    Number(u32),
    Yes,
    No,
    Passed,
}

// What comes after the three fields: nothing; after a check two dashes, or the depth and number of persons of a chain; after a sweep its
// count, or a dash where it was refused.
#[derive(Clone, Copy)]
pub enum Tail {
    Nothing,
    Dashes,
    Chain { depth: u32, persons: u32 },
    Swept(u32),
    Unswept,
}

// What the three units reply to a line; the persons of a chain stand in the chain buffer beside it.
#[derive(Clone, Copy)]
pub struct Reply {
    pub list: Said,
    pub row: Said,
    pub chain: Said,
    pub tail: Tail,
}

// What a unit makes of a command.
impl From<Option<Result<(), Refusal>>> for Said {
    ghost from_gives = { λ o said. said ≡ offered_of o };

    fn from(offered: Option<Result<(), Refusal>>) -> Said {
        match offered {
            Some(answer) => Said::Number(number(answer)),
            None => Said::Passed,
        }
    }
}

// What lists or rows say of a check.
impl From<Result<bool, Refusal>> for Said {
    ghost from_gives = { λ c said. said ≡ check_said (number_of c) (checked_yes c) };

    fn from(checked: Result<bool, Refusal>) -> Said {
        match checked {
            Ok(true) => Said::Yes,
            Ok(false) => Said::No,
            Err(refusal) => Said::Number(refusal.number()),
        }
    }
}

// What a chain unit says of a check.
impl From<Result<Option<BestChain>, Refusal>> for Said {
    ghost from_gives = { λ c said. said ≡ check_said (number_of c) (found_in c).yes };

    fn from(checked: Result<Option<BestChain>, Refusal>) -> Said {
        Said::from(checked.map(|best| best.is_some()))
    }
}

// What comes after a check, by what the chain unit made of it.
impl From<Result<Option<BestChain>, Refusal>> for Tail {
    ghost from_gives = { λ c tail. tail ≡ check_tail (found_in c) };

    fn from(checked: Result<Option<BestChain>, Refusal>) -> Tail {
        match checked {
            Ok(Some(best)) => Tail::Chain {
                depth: best.depth.number(),
                persons: best.persons,
            },
            Ok(None) => Tail::Dashes,
            Err(_) => Tail::Dashes,
        }
    }
}

impl Tail {
    // After a command, by what the chain unit made of it.
    pub fn of_command(c: Command, chain: Result<u32, Refusal>) -> Tail
        ensures { result ≡ command_tail c (number_of chain) (result_unwrap_or chain 0) }
    {
        if !c.is_sweep() {
            return Tail::Nothing;
        }
        match chain {
            Ok(count) => Tail::Swept(count),
            Err(_) => Tail::Unswept,
        }
    }
}

impl Reply {
    // To a malformed line.
    pub fn malformed() -> Reply
        ensures { result ≡ malformed_reply }
    {
        let said = Said::Number(Refusal::Malformed.number());
        Reply {
            list: said,
            row: said,
            chain: said,
            tail: Tail::Nothing,
        }
    }

    // To a command.
    pub fn of_command(
        c: Command,
        list: Option<Result<(), Refusal>>,
        row: Option<Result<(), Refusal>>,
        chain: Result<u32, Refusal>,
    ) -> Reply
        ensures { result ≡ reply (offered_of list) (offered_of row) (Number (number_of chain))
            (command_tail c (number_of chain) (result_unwrap_or chain 0)) }
    {
        Reply {
            list: Said::from(list),
            row: Said::from(row),
            chain: Said::Number(number(chain)),
            tail: Tail::of_command(c, chain),
        }
    }

    // To a check.
    pub fn of_check(
        list: Result<bool, Refusal>,
        row: Result<bool, Refusal>,
        chain: Result<Option<BestChain>, Refusal>,
    ) -> Reply
        ensures { result ≡ reply (check_said (number_of list) (checked_yes list)) (check_said (number_of row) (checked_yes row))
            (check_said (number_of chain) (found_in chain).yes) (check_tail (found_in chain)) }
    {
        Reply {
            list: Said::from(list),
            row: Said::from(row),
            chain: Said::from(chain),
            tail: Tail::from(chain),
        }
    }
}
