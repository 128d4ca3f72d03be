//! The spans of affinities in preorder: those below an affinity follow right after it, and children
//! stand in their order.

ghost use Rattle.std.specs.Prelude.{◌≡◌, ◌↔◌, length, replicate, IsTrue, IfOk};
ghost use Rattle.waff_model.specs.Tree.{IsRooted};
ghost use Rattle.waff_model.specs.Preorder.{Spans, AreNested, leaf, AreShares};

use crate::nodes::Nodes;
use std::alloc::AllocError;

/// Where an affinity stands in preorder: at `first`, and those below it after it, up to `end`.
#[derive(Clone, Copy)]
pub struct Span {
    pub(crate) parent: Option<u16>,
    pub first: u16,
    pub end: u16,
}

impl Span {
    /// Whether the other affinity is this one or one of those below it.
    pub fn spans(&self, other: &Span) -> bool
        ensures { IsTrue result ↔ Spans self.now other.now }
    {
        self.first <= other.first && other.first < self.end
    }
}

/// The part of its parent's places that an affinity and those below it take: so many, and so many
/// of the parent's stand behind them.
#[derive(Clone, Copy)]
struct Share {
    size: u16,
    behind: u16,
}

/// The spans of the affinities of a tree.
pub(crate) fn spans_of(nodes: &Nodes) -> Result<Vec<Span>, AllocError>
    requires { IsRooted nodes.now }
    ensures { IfOk result (λ spans. AreNested nodes.now spans.items) }
{
    let leaf = Share { size: 1, behind: 0 };
    let mut shares = vec![in nodes.allocator(); leaf; nodes.len()]?;
    share_out(nodes, &mut shares);
    arrange(nodes, &shares)
}

/// Gives each parent, from the last affinity to the first, the places of its children, the last of
/// which stands last.
fn share_out(nodes: &Nodes, shares: &mut [Share])
    requires tree { IsRooted nodes.now }
    requires leaves { shares.old ≡ replicate (length nodes.now) leaf }
    ensures { AreShares nodes.now shares.new 0 }
{
    for at in (0..shares.len()).rev() {
        if let Some(parent) = nodes.parent(at) {
            let size = shares[at].size;
            let before = shares[parent as usize].size;
            shares[at].behind = before - 1;
            shares[parent as usize].size = before + size;
        }
    }
}

/// Gives each affinity its span, from the first to the last, by its share of its parent's.
fn arrange(nodes: &Nodes, shares: &[Share]) -> Result<Vec<Span>, AllocError>
    requires tree { IsRooted nodes.now }
    requires shares { AreShares nodes.now shares.now 0 }
    ensures { IfOk result (λ spans. AreNested nodes.now spans.items) }
{
    let mut spans: Vec<Span> = Vec::with_capacity(nodes.allocator(), shares.len())?;
    for (at, share) in shares.iter().enumerate() {
        let parent = nodes.parent(at);
        let end = match parent {
            Some(parent) => spans[parent as usize].end - share.behind,
            None => share.size,
        };
        let first = end - share.size;
        spans.push(Span { parent, first, end })?;
    }
    Ok(spans)
}
