//! What helps at a terminal: the line below that of a fault, and a tip where an option is refused that
//! other programs have.
use std::alloc::{AllocError, Global};

/// Below the fault `Write`.
pub const NOT_WRITTEN: &str =
    "what is printed could not be written: the output is full, or was closed\n";

/// Below the fault `Memory`.
pub const NO_MEMORY: &str = "the system gave no more memory\n";

/// What `clap` says of options for a file of output, which no command has.
static OUTPUTS: [&str; 3] = [
    "to pass '-o' as a value, use '-- -o'",
    "to pass '--out' as a value, use '-- --out'",
    "to pass '--output' as a value, use '-- --output'",
];

/// What helps there.
const TO_A_FILE: &str = "to keep what is printed in a file, use '>FILE'";

/// What `clap` says of the short word for workers, which a replay does not have.
const SHORT_WORKERS: &str = "to pass '-k' as a value, use '-- -k'";

/// What helps there.
const LONG_WORKERS: &str = "to replay on 4 threads, use '--workers 4'";

/// What `clap` says of several numbers of workers for a command of one.
const ONE_NUMBER: &str = "for '--workers <K>': invalid digit found in string";

/// What helps there.
const SEVERAL_NUMBERS: &str = "\
for '--workers <K>': invalid digit found in string

  tip: waff sweep and waff limits take several numbers";

/// The text of an error of the words of this command, with a tip that helps in place of that of `clap`
/// where there is one, or behind what it says.
pub(crate) fn text_with_tip(
    alloc: Global,
    error: &clap::Error,
    command: &str,
) -> Result<String, AllocError> {
    let text = format!(in alloc; "{error}")?;
    let Some((said, helps)) = tip(command, text.as_str()) else {
        return Ok(text);
    };
    let told = text.as_str().replace(alloc, said, helps);
    drop(text);
    told
}

/// The part of this text that does not help, and the one that does.
fn tip(command: &str, text: &str) -> Option<(&'static str, &'static str)> {
    if command == "replay" && text.contains(SHORT_WORKERS) {
        return Some((SHORT_WORKERS, LONG_WORKERS));
    }
    if text.contains(ONE_NUMBER) && before(text, ONE_NUMBER).contains(',') {
        return Some((ONE_NUMBER, SEVERAL_NUMBERS));
    }
    for said in OUTPUTS.iter() {
        if text.contains(*said) {
            return Some((*said, TO_A_FILE));
        }
    }
    None
}

/// What stands before the first place of these words in a text.
fn before<'a>(text: &'a str, words: &'static str) -> &'a str {
    text.split(words).next().unwrap_or("")
}
