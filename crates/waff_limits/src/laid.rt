//! A trace under a hierarchy.

ghost use Rattle.std.specs.Prelude.{◌≡◌};
ghost use Rattle.waff_model.specs.Messages.{sizes_of};

use waff_assign::Case;
use waff_model::Layout;

/// A trace under a tree of affinities, with the layout that gives the tree and the owners of cells.
#[derive(Clone, Copy)]
pub struct Laid<'a> {
    pub case: Case<'a>,
    pub layout: &'a Layout,
    pub ghost tree: { case.tree.now ≡ layout.now.tree },
    pub ghost fits: { case.trace.now.sizes ≡ sizes_of layout.now.spaces },
}
