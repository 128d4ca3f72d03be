//! The line of a verdict.
ghost use Rattle.std.specs.Prelude.{Some};
ghost use Rattle.std.specs.List.{join_with_byte};
ghost use Rattle.waff_tool.specs.CheckText.{verdict_fields};

use std::fmt;
use waff_check::Verdict;

/// The fields of the line of a verdict, joined by commas.
#[derive(Clone, Copy)]
pub struct VerdictFields(pub Verdict);

impl fmt::Display for VerdictFields {
    ghost output = { λ v. Some (join_with_byte 44 (verdict_fields v.0)) };

    fn fmt<W: fmt::Write>(&self, f: &mut fmt::Formatter<W>) -> fmt::Result {
        let (name, number) = match self.0 {
            Verdict::Overlap { first, second } => return write!(f, "overlap,{first},{second}"),
            Verdict::TooManyAt { tick } => ("toomany", tick),
            Verdict::Worker { message } => ("worker", u64::from(message)),
            Verdict::Affinity { message } => ("affinity", u64::from(message)),
            Verdict::Finish { message } => ("finish", u64::from(message)),
            Verdict::Totals => return f.write_str("totals"),
            Verdict::NotAChain { place } => ("notachain", place),
            Verdict::Obeys => return f.write_str("obeys"),
            Verdict::Shortest => return f.write_str("shortest"),
            Verdict::WithinBound => return f.write_str("withinbound"),
            Verdict::Early { message } => ("early", u64::from(message)),
            Verdict::Client { message } => ("client", u64::from(message)),
            Verdict::Tight => return f.write_str("tight"),
            Verdict::After { message, awaited } => return write!(f, "after,{message},{awaited}"),
        };
        write!(f, "{name},{number}")
    }
}
