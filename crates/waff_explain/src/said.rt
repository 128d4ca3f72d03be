//! Values as a line shows them.

use std::fmt;

/// The most bytes that are shown.
const MOST: usize = 1000;

/// A value in a sentence.
#[derive(Clone, Copy)]
pub(crate) enum Said<'a> {
    /// A number.
    Number(u64),
    /// A number that may be below 0.
    Integer(i64),
    /// A text, as it is.
    Text(&'a str),
    /// Bytes of a file on one line: as they stand where they are printable ASCII, but for a
    /// backslash, and else by their numbers; the first ones of many.
    Bytes(&'a [u8]),
}

impl<'a> From<u64> for Said<'a> {
    fn from(number: u64) -> Self {
        Said::Number(number)
    }
}

impl<'a> From<u32> for Said<'a> {
    fn from(number: u32) -> Self {
        Said::Number(u64::from(number))
    }
}

impl<'a> From<usize> for Said<'a> {
    fn from(number: usize) -> Self {
        Said::Number(number as u64)
    }
}

impl<'a> From<i64> for Said<'a> {
    fn from(number: i64) -> Self {
        Said::Integer(number)
    }
}

impl<'a> From<&'a str> for Said<'a> {
    fn from(text: &'a str) -> Self {
        Said::Text(text)
    }
}

impl<'a> From<&'a [u8]> for Said<'a> {
    fn from(bytes: &'a [u8]) -> Self {
        Said::Bytes(bytes)
    }
}

impl<'a> fmt::Display for Said<'a> {
    fn fmt<W: fmt::Write>(&self, f: &mut fmt::Formatter<W>) -> fmt::Result {
        match *self {
            Said::Number(number) => write!(f, "{number}"),
            Said::Integer(number) => write!(f, "{number}"),
            Said::Text(text) => f.write_str(text),
            Said::Bytes(bytes) => show(f, bytes),
        }
    }
}

fn show<W: fmt::Write>(f: &mut fmt::Formatter<W>, bytes: &[u8]) -> fmt::Result {
    for byte in bytes.get(..MOST).unwrap_or(bytes) {
        show_byte(f, *byte)?;
    }
    if MOST < bytes.len() {
        write!(f, ".. ({} bytes)", bytes.len())?;
    }
    Ok(())
}

fn show_byte<W: fmt::Write>(f: &mut fmt::Formatter<W>, byte: u8) -> fmt::Result {
    match byte {
        b'\\' => f.write_str("\\\\"),
        b'\n' => f.write_str("\\n"),
        b'\r' => f.write_str("\\r"),
        b'\t' => f.write_str("\\t"),
        0x20..=0x7e => f.write_char(byte as char),
        _ => write!(f, "\\x{byte:02x}"),
    }
}
