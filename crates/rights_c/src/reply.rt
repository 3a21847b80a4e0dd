// What the check of a chain unit finds, as numbers.
ghost use Rattle.std.specs.Prelude.{◌≡◌};
ghost use Rattle.model.specs.Answers.{found_in};

use model::{BestChain, Refusal};

// The depth and the number of persons of a yes; 0 and 0 for no and beside a refusal.
pub fn values(c: Result<Option<BestChain>, Refusal>) -> (u32, u32)
    ensures { (result.0 ≡ (found_in c).depth) × (result.1 ≡ (found_in c).persons) }
{
    match c {
        Ok(Some(best)) => (best.depth.number(), best.persons),
        Ok(None) => (0, 0),
        Err(_) => (0, 0),
    }
}
