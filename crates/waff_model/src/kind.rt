//! Kinds of hierarchies.

/// The model of affinities that a hierarchy is for. Here it is a label: the reader sees to it that
/// a classical tree has at most two levels.
#[derive(Clone, Copy, PartialEq)]
pub enum Kind {
    Classical,
    Hierarchical,
}
