//! As what a plan is drawn.

/// As what a plan is drawn.
#[derive(Clone, Copy)]
pub enum Picture {
    /// A document for a browser.
    Svg,
    /// Events, for a viewer of traces.
    Events,
}
