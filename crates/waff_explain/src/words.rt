//! The lines of an explanation, which grow in number.

ghost use Rattle.std.specs.Prelude.{◌≡◌, Some, IfOk, List, ℕ, length, string_bytes};
ghost use Rattle.waff_explain.specs.Lines.{IsHeadedLine, AreHeadedLines, LinesAreOne, head_text};
ghost use Rattle.waff_explain.specs.Lines.{places};

use crate::said::Said;
use std::alloc::{AllocError, Global};
use std::fmt;
use std::marker::Model;
use waff_parse::cut;

/// What a line begins with, which tells what it has.
#[derive(Clone, Copy)]
pub enum Head {
    /// The file, and the place in it.
    Where,
    /// What there is to tell of the message of this number.
    Message(u32),
    /// What stands there.
    Found,
    /// Why two messages exclude each other.
    Why,
    /// What should stand there.
    Wanted,
    /// How much there is.
    Affinities,
}

impl fmt::Display for Head {
    ghost output = { λ head. Some (head_text head) };

    fn fmt<W: fmt::Write>(&self, f: &mut fmt::Formatter<W>) -> fmt::Result {
        match self {
            Head::Where => write!(f, "where: "),
            Head::Message(n) => write!(f, "message {n}: "),
            Head::Found => write!(f, "found: "),
            Head::Why => write!(f, "why: "),
            Head::Wanted => write!(f, "wanted: "),
            Head::Affinities => write!(f, "affinities: "),
        }
    }
}

/// Appends to words a line with a head: a sentence, with the values that stand in it at each `{}`.
#[macro_export]
macro_rules! say {
    ($words:expr; $head:ident $(($number:expr))?: $format:literal) => {
        $words.say($crate::words::Head::$head $(($number))?, $format, &[])
    };
    ($words:expr; $head:ident $(($number:expr))?: $format:literal, $($value:expr),+) => {{
        let values = [$($crate::said::Said::from($value)),+];
        $words.say($crate::words::Head::$head $(($number))?, $format, &values);
    }};
}

/// What a line says behind its head.
#[derive(Clone, Copy)]
struct Sentence<'a> {
    format: &'a str,
    values: &'a [Said<'a>],
}

impl<'a> fmt::Display for Sentence<'a> {
    fn fmt<W: fmt::Write>(&self, f: &mut fmt::Formatter<W>) -> fmt::Result {
        let mut pieces = self.format.split("{}");
        if let Some(piece) = pieces.next() {
            f.write_str(piece)?;
        }
        for (value, piece) in self.values.iter().zip(pieces) {
            write!(f, "{value}{piece}")?;
        }
        Ok(())
    }
}

/// Lines of an explanation. Where memory is refused they keep that, and what comes then is left
/// out, so that only their end has to be asked.
#[derive(Drop)]
pub(crate) struct Words {
    text: String,
    is_refused: bool,
}

impl Model for Words {
    ghost Value = { List ℕ };

    ghost view = { λ w. string_bytes w.text };

    ghost invariant = { λ w. AreHeadedLines (string_bytes w.text) };
}

impl Words {
    /// No lines.
    pub(crate) fn new(alloc: Global) -> Self {
        Words {
            text: String::new(alloc),
            is_refused: false,
        }
    }

    /// The allocator of the text.
    pub(crate) fn alloc(&self) -> Global {
        *self.text.allocator()
    }

    /// The text of the lines, unless memory was refused.
    pub(crate) fn finish(self) -> Result<String, AllocError>
        ensures { IfOk result (λ text. AreHeadedLines (string_bytes text)) }
    {
        if self.is_refused {
            return Err(AllocError);
        }
        Ok(self.text)
    }

    /// Keeps that memory was refused for what the lines tell of.
    pub(crate) fn refuse(&mut self) {
        self.is_refused = true;
    }

    /// Appends a line with this head: the sentence of a format, with a value for each `{}`.
    pub(crate) fn say(&mut self, head: Head, format: &str, values: &[Said<'_>])
        requires filled { places format.now ≡ length values.now }
    {
        match line_of(self.alloc(), head, Sentence { format, values }) {
            Ok(line) => self.push(line.as_str()),
            Err(_) => self.refuse(),
        }
    }

    fn push(&mut self, line: &str)
        requires { IsHeadedLine line.now }
    {
        if !self.is_refused {
            self.is_refused = self.text.push_str(line).is_err();
        }
    }
}

/// A line with this head: the sentence, up to a line feed.
fn line_of(alloc: Global, head: Head, said: Sentence<'_>) -> Result<String, AllocError>
    ensures { IfOk result (λ line. IsHeadedLine (string_bytes line)) }
{
    let said = format!(in alloc; "{said}")?;
    let (shown, _) = cut(said.as_str(), '\n');
    format!(in alloc; "{head}{shown}\n")
}

/// The text of an explanation is parted into its lines in one way: a function that does nothing and
/// whose contract is the law.
pub fn lines_are_one()
    ensures { LinesAreOne }
{}
