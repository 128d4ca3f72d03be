//! A text written out.
ghost use Rattle.std.specs.Prelude.{◌≡◌, OnOk, OnErr, Err, string_bytes};
ghost use Rattle.std.specs.Io.KnownBytes.{Appends};
ghost use Rattle.waff_inputs.specs.Deliveries.{HandsOn};
ghost use Rattle.waff_io.specs.Writing.{AppendsPart};

use crate::fault::ToolError;
use std::io::Write;
use waff_io::write_whole;

/// Writes the text.
pub fn write_text<W: Write>(writer: &mut W, text: &[u8]) -> Result<(), ToolError>
    ensures written { OnOk result
        (Appends (W.contents writer.old) (W.contents writer.new) text.now) }
    ensures part { OnErr result
        (AppendsPart (W.contents writer.old) (W.contents writer.new) text.now) }
    ensures fault { OnErr result (result ≡ Err ToolError.Write) }
{
    match write_whole(writer, text) {
        Ok(()) => Ok(()),
        Err(_) => Err(ToolError::Write),
    }
}

/// Writes the text that was made of files, or answers why none was made.
pub fn deliver<W: Write>(writer: &mut W, made: Result<String, ToolError>) -> Result<(), ToolError>
    ensures { HandsOn (λ text. string_bytes text) made
        (W.contents writer.old) (W.contents writer.new) result }
{
    match made {
        Ok(text) => write_text(writer, text.as_bytes()),
        Err(error) => Err(error),
    }
}
