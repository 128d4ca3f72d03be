//! One question for what was found of the words, or one way to run messages: functions that do nothing, and whose
//! contracts are the laws.
ghost use Rattle.std.specs.Prelude.{ℕ, List, Option};
ghost use Rattle.clap.specs.Words.{Row};
ghost use Rattle.waff_cli.specs.Unique.{AskedIsOne, RunIsOne};

/// What was found of the words asks for one thing.
pub fn asked_is_one()
    ensures equal { (found : Option (List ℕ × List Row)) → AskedIsOne found }
{}

/// What was found of the words of `run` says of one way how messages are to be run.
pub fn run_is_one()
    ensures equal { (found : Option (List ℕ × List Row)) → RunIsOne found }
{}
