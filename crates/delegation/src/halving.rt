// The place of a number among rising words, by halving.
ghost use Rattle.std.specs.Prelude.{◌≡◌, true};
ghost use Rattle.delegation.specs.Loans.{rising};
ghost use Rattle.delegation.specs.Below.{Below};

// How many of the words lie below x. A helper for the crates above, whose words were judged: so it requires that they rise.
pub fn below(words: &[u32], x: u32) -> usize
    requires { rising words.now ≡ true }
    ensures { Below words.now x result }
{
    words.partition_point(|w| *w < x)
}
