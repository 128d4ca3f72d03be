//! A picture of a plan, whoever made it, or of a part of it: a lane for each affinity and each
//! worker, a bar for each message. Messages that have no affinity have lanes of their own.
//!
//! - `lanes`: the affinities that have a message, or these and what is above them, in preorder;
//!   `marks`: which numbers a list has; `laws`: each has one lane, where its bars are, and the lanes
//!   are in preorder; which ticks are shown, and where the axis has lines.
//! - `loose`: the lanes of messages that have no affinity, named `-`.
//! - `parts`: the ticks that are shown; `chart`: what a picture shows, made ready for drawing.
//! - `colours`: which names have a colour; `axis`: round numbers of ticks; `xml`: names in a document of markup.
//! - `picture`: as what a plan is drawn; `svg`: the text of the picture; `bars`: its bars; `runs`: the outlines of the chain; `frame`: where
//!   what is around them stands; `pieces`: what all are made of.
//! - `events`: the same as events of threads, for a viewer of traces.
//!
//! The picture of a plan that is given, or of a part of it, whether or not it obeys, is one
//! document, byte for byte, and so are its events. The definition names the style sheet of a
//! picture by the constant of the program, so no contract tells a wrong letter in it; the command
//! cases do. That a browser shows the document legibly is not promised by a contract:
//! `tests/draw/browser` opens large pictures.
//!
//! Tests: the command cases `draw-*`, whose texts are those of `tests/draw/picture`, which makes
//! the picture apart from the program.
#![tactic(auto)]

mod axis;
mod bars;
mod chart;
mod colours;
mod events;
mod frame;
mod lanes;
mod laws;
mod loose;
mod marks;
mod parts;
mod picture;
mod pieces;
mod runs;
mod svg;
mod xml;

pub use events::events_text;
pub use laws::{
    axis_has_lines, depth_is_steps, lane_is_one, lanes_are_of_tree, lanes_in_preorder,
    row_is_of_lane, shows_ticks_in_part, whole_shows_all,
};
pub use parts::Part;
pub use picture::Picture;
pub use svg::svg_text;
