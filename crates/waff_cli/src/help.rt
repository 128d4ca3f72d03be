//! What the help of the program ends with, made of the table of commands; and the long help of an option
//! that takes more than a line.
use crate::commands::CommandWords;
use crate::table::{COUNT, command};
use std::alloc::{AllocError, Global};

/// What the long help of the program ends with, or the short one: the commands that it does not begin with,
/// in groups, with what they are about or by their names alone, and what else is to be known.
pub fn ending(alloc: Global, is_long: bool) -> Result<String, AllocError> {
    let mut text = String::with_capacity(alloc, 2_048)?;
    let mut last = "";
    for place in 0..COUNT {
        if let Some((row, group)) = grouped(place) {
            push_row(&mut text, row, group, group == last, is_long)?;
            last = group;
        }
    }
    text.push_str(if is_long { LONG } else { SHORT })?;
    Ok(text)
}

/// The command of this place with the title of its group, if it has one.
fn grouped(place: usize) -> Option<(CommandWords, &'static str)> {
    let row = command(place)?;
    Some((row, row.group?))
}

/// Appends a command, behind the title of its group where it is not the next one of that.
fn push_row(
    text: &mut String,
    row: CommandWords,
    group: &str,
    is_next: bool,
    is_long: bool,
) -> Result<(), AllocError> {
    let CommandWords { name, about, .. } = row;
    match (is_long, is_next) {
        (true, true) => writeln!(text, "  {name:<8} {about}"),
        (true, false) => writeln!(text, "\n{group}\n  {name:<8} {about}"),
        (false, true) => write!(text, ", {name}"),
        (false, false) => write!(text, "\n{group:<22}{name}"),
    }
}

/// What stands below the groups in the short help.
const SHORT: &str = "\n\nWithout arguments: the plan of what standard input holds.";

/// What stands below the groups in the long help.
const LONG: &str = "
Example: waff plan hier.toml trace.csv | waff check hier.toml trace.csv -

HIER is a hierarchy, a TOML file; TRACE a trace, a CSV file; PLAN what waff plan
prints. One of them may be -, standard input.

A trace with clients has the header message,cost,release,client,think,ops. A
client issues a message at its release, but no sooner than the think time after
its last one has finished. Its first one, and each of no client (-), is issued
no sooner than at the think time. What is issued first is served first. With the
header message,cost,release,client,think,after,ops a message may await earlier
ones besides: where after is 3 7+20, it is issued when message 3 has finished,
and no sooner than 20 ticks after 7 has.

Without arguments waff reads standard input, a hierarchy, a line ---, and a
trace, and prints the plan of both.";

/// What the rules are, and when which is better.
pub const RULE: &str = "\
Which ready message starts first: by arrival, the default, the one
that arrived first; by longest the one with the longest chain of
messages behind it, each of which excludes the one before (with
clients: awaits it). Longest usually gives the shorter plan; where
requests arrive over time it may raise the greatest latencies";
