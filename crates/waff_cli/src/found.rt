//! What the parser found of the words: the words of each option and file, as numbers and as they are.
ghost use Rattle.std.specs.Prelude.{◌≡◌, IfOk, map, option_map};
ghost use Rattle.clap.specs.Words.{all_of, first_of, subcommand_rows_of};
ghost use Rattle.waff_cli.specs.Words as asks;
ghost use Rattle.waff_cli.specs.Words.{is_set, rows_in};

use crate::refusal::Refusal;
use clap::ArgMatches;

/// The word for the command, and what was found of its words.
pub fn command_in<'a, 'm>(matches: &'m ArgMatches<'a>) -> Option<(&'a str, &'m ArgMatches<'a>)>
    ensures { option_map (λ found. (found.0.now, rows_in found.1.now)) result
        ≡ subcommand_rows_of matches.now }
{
    matches.subcommand()
}

/// The first word of this option or file, where it is given.
pub fn word_in<'a>(matches: &ArgMatches<'a>, id: &str) -> Option<&'a str>
    ensures { option_map (λ word. word.now) result ≡ first_of id.now (rows_in matches.now) }
{
    matches.get_str(id)
}

/// The words of this option or file, where it is given.
pub fn words_in<'a, 'm>(matches: &'m ArgMatches<'a>, id: &str) -> Option<&'m [&'a str]>
    ensures { option_map (λ words. map (λ word. word.now) words.now) result
        ≡ all_of id.now (rows_in matches.now) }
{
    matches.get_strs(id)
}

/// Whether this option, which takes no word, is given.
pub fn flag_in(matches: &ArgMatches<'_>, id: &str) -> bool
    ensures { result ≡ is_set (rows_in matches.now) id.now }
{
    match word_in(matches, id) {
        Some(word) => word == "true",
        None => false,
    }
}

/// The number of this option, where it is given.
pub fn number_in(matches: &ArgMatches<'_>, id: &str) -> Result<Option<u32>, Refusal>
    ensures { IfOk result (λ number. number ≡ asks.number_in (rows_in matches.now) id.now) }
{
    if !matches.contains_id(id) {
        return Ok(None);
    }
    match matches.get_one::<u32>(id) {
        Some(number) => Ok(Some(number)),
        None => Err(Refusal::NoWords),
    }
}

/// The tick of this option, where it is given.
pub fn tick_in(matches: &ArgMatches<'_>, id: &str) -> Result<Option<u64>, Refusal>
    ensures { IfOk result (λ number. number ≡ asks.number_in (rows_in matches.now) id.now) }
{
    if !matches.contains_id(id) {
        return Ok(None);
    }
    match matches.get_one::<u64>(id) {
        Some(number) => Ok(Some(number)),
        None => Err(Refusal::NoWords),
    }
}
