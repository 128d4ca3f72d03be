//! Names, and texts that need not be names.

ghost use Rattle.std.specs.Prelude.{◌≡◌, IfOk};
ghost use Rattle.std.specs.List.{list_all};
ghost use Rattle.waff_model.specs.Names as names;

use crate::limits::MAX_NAME;
use arrayvec::ArrayString;
use std::alloc::{AllocError, Global};
use std::marker::Model;

/// Whether the text is a name: 1 to 32 bytes of `A-Z a-z 0-9 . _ -`.
pub fn is_name(text: &str) -> bool
    ensures { result ≡ names.is_name text.now }
{
    let bytes = text.as_bytes();
    1 <= bytes.len() && bytes.len() <= MAX_NAME && has_name_bytes(bytes)
}

fn has_name_bytes(bytes: &[u8]) -> bool
    ensures { result ≡ list_all names.is_name_byte bytes.now }
{
    bytes.iter().all(|byte| is_name_byte(*byte))
}

fn is_name_byte(byte: u8) -> bool
    ensures { result ≡ names.is_name_byte byte }
{
    byte.is_ascii_alphanumeric() || byte == b'.' || byte == b'_' || byte == b'-'
}

// So many bytes of a text lie in the value itself. Most names of messages are as short.
const SHORT: usize = 16;

/// A text of its own. A short one lies in the value itself, so that the names of many messages are
/// not as many allocations.
pub struct Text {
    kept: Bytes,
}

#[derive(Drop)]
enum Bytes {
    Short(ArrayString<SHORT>),
    Long(String),
}

impl Model for Text {
    ghost use Rattle.std.specs.Prelude.{List, ℕ};
    ghost use Rattle.waff_model.specs.Texts.{bytes_of};

    ghost Value = { List ℕ };

    ghost view = { λ t. bytes_of t.kept };
}

// Written out: a derived drop is proved again in each crate that lets go of the value.
impl Drop for Text {
    fn drop(self) {
        let Text { kept } = self;
        drop(kept);
    }
}

impl Text {
    /// A copy of the text.
    pub fn of(alloc: Global, text: &str) -> Result<Self, AllocError>
        ensures { IfOk result (λ t. t ≡ text.now) }
    {
        let kept = match ArrayString::from(text) {
            Ok(short) => Bytes::Short(short),
            Err(_) => Bytes::Long(String::from_str(alloc, text)?),
        };
        Ok(Text { kept })
    }

    /// The text.
    pub fn as_str(&self) -> &str
        ensures { result.now ≡ self.now }
    {
        match &self.kept {
            Bytes::Short(text) => text.as_str(),
            Bytes::Long(text) => text.as_str(),
        }
    }
}
