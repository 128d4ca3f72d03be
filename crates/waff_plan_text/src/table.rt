//! The lines of a summary: which there are, and in which order.

ghost use Rattle.std.specs.Prelude.{◌≡◌};
ghost use Rattle.waff_plan_text.specs.Table as table;

use waff_model::Version;

/// A line of a summary.
#[derive(Clone, Copy)]
pub enum Line {
    Workers,
    Total,
    Length,
    Chain,
    Release,
    Cost,
    Bound,
}

/// The lines in their order.
static LINES: [Line; 7] = [
    Line::Workers,
    Line::Total,
    Line::Length,
    Line::Chain,
    Line::Release,
    Line::Cost,
    Line::Bound,
];

/// The lines in their order, of which a version need not have all.
pub(crate) fn all_lines() -> &'static [Line]
    ensures { result.now ≡ table.all_lines }
{
    &LINES
}

impl Line {
    /// Whether a text of this version has the line.
    pub(crate) fn is_in(self, version: Version) -> bool
        ensures { result ≡ table.is_in version self }
    {
        match self {
            Line::Release => version.has_releases(),
            _ => true,
        }
    }

    /// The first field of the line.
    pub(crate) fn name(self) -> &'static str
        ensures { result.now ≡ table.line_name self }
    {
        match self {
            Line::Workers => "workers",
            Line::Total => "total",
            Line::Length => "length",
            Line::Chain => "chain",
            Line::Release => "release",
            Line::Cost => "cost",
            Line::Bound => "bound",
        }
    }
}
