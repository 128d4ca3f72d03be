//! Text in a document of markup. A name stands between tags alone, and no attribute has one, so that
//! quotes stay as they are.

ghost use Rattle.std.specs.Prelude.{◌≡◌, Some};
ghost use Rattle.waff_draw.specs.Xml.{xml_char, xml_text};

use std::fmt;

/// The characters of a text, those of markup by their entities.
#[derive(Clone, Copy)]
pub(crate) struct Xml<'a>(pub(crate) &'a str);

impl Xml<'_> {
    fn text(&self) -> &str
        ensures { result.now ≡ self.now.0.now }
    {
        self.0
    }
}

impl fmt::Display for Xml<'_> {
    ghost output = { λ xml. Some (xml_text xml.0.now) };

    fn fmt<W: fmt::Write>(&self, f: &mut fmt::Formatter<W>) -> fmt::Result {
        for character in self.text().chars() {
            write!(f, "{}", XmlChar(character))?;
        }
        Ok(())
    }
}

/// One character, by its entity where it is one of markup.
#[derive(Clone, Copy)]
struct XmlChar(char);

impl fmt::Display for XmlChar {
    ghost output = { λ xml. Some (xml_char xml.0) };

    fn fmt<W: fmt::Write>(&self, f: &mut fmt::Formatter<W>) -> fmt::Result {
        match self.0 {
            '&' => f.write_str("&amp;"),
            '<' => f.write_str("&lt;"),
            '>' => f.write_str("&gt;"),
            character => f.write_char(character),
        }
    }
}
