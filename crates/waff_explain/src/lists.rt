//! What is wrong with the list of a message.

use crate::say;
use crate::words::Words;
use waff_model::limits::{MAX_AWAITED, MAX_THINK};
use waff_parse::{cut, number, number_within};

/// What is wrong with a piece.
#[derive(Clone, Copy)]
enum Flaw<'a> {
    /// It is no number, alone or with a gap.
    Shape,
    /// It names the message itself.
    Itself,
    /// This is the number of no earlier message.
    NotEarlier(&'a str),
    /// Its number is not greater than this one, which stands before it.
    NotRising(u64),
    /// This gap is not within the limit.
    Gap(&'a str),
}

impl<'a> Flaw<'a> {
    /// Appends what was found in the list of this message, and what is wanted.
    fn push_words(self, words: &mut Words, own: u64, place: u64, piece: &str) {
        let shown = piece.as_bytes();
        match self {
            Flaw::Shape => {
                say!(words; Found: "piece {}, `{}`: neither `N` nor `N+G`", place, shown);
                say!(words; Wanted: "pieces with one space between them, of numbers without a leading zero");
            }
            Flaw::Itself => {
                say!(words; Found: "piece {}, `{}`: this is message {} itself", place, shown, own);
                push_earlier(words, own);
                push_other_numbers(words);
            }
            Flaw::NotEarlier(message) => {
                let number = message.as_bytes();
                say!(words; Found: "piece {}, `{}`: no earlier message has the number {}",
                    place, shown, number);
                push_earlier(words, own);
                if message == "0" {
                    push_other_numbers(words);
                }
            }
            Flaw::NotRising(before) => {
                say!(words; Found: "piece {}, `{}`: the number before it is {}", place, shown, before);
                say!(words; Wanted: "numbers that rise");
            }
            Flaw::Gap(gap) => {
                say!(words; Found: "piece {}, `{}`: the gap {}", place, shown, gap.as_bytes());
                say!(words; Wanted: "a number from 0 to {}", MAX_THINK);
            }
        }
    }
}

/// Appends which messages a list may name.
fn push_earlier(words: &mut Words, own: u64) {
    match own {
        0 | 1 => say!(words; Wanted: "an empty field, as there is no earlier message"),
        _ =>
            say!(words; Wanted: "the number of an earlier message, 1 to {}", own.saturating_sub(1)),
    }
}

/// Appends the guess that messages are numbered in another way.
fn push_other_numbers(words: &mut Words) {
    say!(words; Found:
        "perhaps relative or 0-based numbers, or those of lines: 1 is the first message behind the header");
}

/// Appends what is wrong with the list of message `own`: of its first piece that is not as it should be.
pub(crate) fn push_no_list(words: &mut Words, own: u64, list: &str) {
    let mut place: u64 = 0;
    let mut before: u64 = 0;
    for piece in list.split(' ') {
        place = place.saturating_add(1);
        match message_of(own, before, piece) {
            Ok(message) => before = message,
            Err(flaw) => return flaw.push_words(words, own, place, piece),
        }
    }
}

/// The number of the message that a piece names behind this one, or what is wrong with the piece.
fn message_of<'a>(own: u64, before: u64, piece: &'a str) -> Result<u64, Flaw<'a>> {
    let (message, gap) = cut(piece, '+');
    let gap = gap.unwrap_or("0");
    let (Some(found), Some(_)) = (number(message), number(gap)) else {
        return Err(Flaw::Shape);
    };
    let found = found.unwrap_or(u64::MAX);
    if found == own {
        return Err(Flaw::Itself);
    }
    if found == 0 || own < found {
        return Err(Flaw::NotEarlier(message));
    }
    if found <= before {
        return Err(Flaw::NotRising(before));
    }
    match number_within(gap, 0, u64::from(MAX_THINK)) {
        Some(_) => Ok(found),
        None => Err(Flaw::Gap(gap)),
    }
}

/// Appends that there are too many pieces in the lists so far.
pub(crate) fn push_many_pieces(words: &mut Words, list: &str) {
    let pieces = list.split(' ').count();
    say!(words; Found: "{} pieces, with which all lists have more than {}", pieces, MAX_AWAITED);
    say!(words; Wanted: "{} pieces or fewer of all lists", MAX_AWAITED);
}
