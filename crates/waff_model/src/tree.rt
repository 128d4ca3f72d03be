//! Trees of affinities.

ghost use Rattle.std.specs.Prelude.{◌≡◌, ◌+◌, ◌==◌, if◌then◌else◌, ◌<◌, ◌↔◌, [], ◌∷◌, ◌++◌, length};
ghost use Rattle.std.specs.Prelude.{option_map, unwrap_or, None, IsTrue, IfOk, IfErr, IfSome, OnOk};
ghost use Rattle.std.specs.Prelude.{OnErr};
ghost use Rattle.waff_model.specs.Tree.{parent_of, number_of, name_of, AtOrAbove, Excludes, IsRooted};
ghost use Rattle.waff_model.specs.Tree.{IsTree};
ghost use Rattle.waff_model.specs.Preorder.{AreNested};
ghost use Rattle.waff_model.specs.TreeRefusal.{node_of, refusal_of};

use crate::limits::MAX_AFFINITIES;
use crate::name::is_name;
use crate::nodes::Nodes;
use crate::preorder::{Span, spans_of};
use std::alloc::{AllocError, Global};
use std::marker::Model;

/// An affinity, by its number: affinities are numbered from 0 in the order in which they were
/// added.
#[derive(Clone, Copy, Debug, PartialEq)]
pub struct AffinityId(pub u16);

/// Why an affinity was refused. Where several hold, the first is answered.
#[derive(Clone, Copy, Debug, PartialEq)]
pub enum TreeError {
    /// Not a name.
    Name,
    /// An affinity of this name is there.
    Twice,
    /// A second affinity without parent.
    SecondRoot,
    /// No affinity.
    NoRoot,
    /// The parent is no affinity that was added.
    ParentUnknown,
    /// Too many affinities.
    TooMany,
    /// Out of memory.
    Memory,
}

/// A tree of affinities while it is built.
#[derive(Drop)]
pub struct TreeBuilder {
    nodes: Nodes,
}

impl Model for TreeBuilder {
    ghost use Rattle.std.specs.Prelude.{List};
    ghost use Rattle.waff_model.specs.Tree.{Node, IsRooted};

    ghost Value = { List Node };

    ghost view = { λ b. b.nodes };

    ghost invariant = { λ b. IsRooted b.nodes };
}

impl TreeBuilder {
    /// A builder to which nothing was added.
    pub fn new(alloc: Global) -> Self
        ensures { result ≡ [] }
    {
        TreeBuilder {
            nodes: Nodes::new(alloc),
        }
    }

    /// Adds an affinity under its parent, or as the root, and answers its number.
    pub fn add(&mut self, name: &str, parent: Option<AffinityId>) -> Result<AffinityId, TreeError>
        ensures added { OnOk result (self.new ≡ self.old ++ node_of name.now parent ∷ []) }
        ensures number { IfOk result (λ a. a.0 ≡ length self.old) }
        ensures accepted { OnOk result (refusal_of self.old (node_of name.now parent) ≡ None) }

        // Memory is answered only where nothing else is to be refused.
        ensures refused { IfErr result (λ e.
            e ≡ unwrap_or (refusal_of self.old (node_of name.now parent)) TreeError.Memory) }
        ensures unchanged { OnErr result (self.new ≡ self.old) }
    {
        let parent = parent.map(|p| p.0);
        if let Some(refusal) = refusal(&self.nodes, name, parent) {
            return Err(refusal);
        }
        let number = self.nodes.len() as u16;
        match self.nodes.push(name, parent) {
            Ok(()) => Ok(AffinityId(number)),
            Err(_) => Err(TreeError::Memory),
        }
    }

    /// The tree of the affinities that were added. Memory is answered only where it ran out.
    pub fn build(self) -> Result<Tree, TreeError>
        ensures kept { IfOk result (λ tree. tree ≡ self) }
        ensures accepted { OnOk result (0 < length self) }
        ensures refused { IfErr result (λ e.
            e ≡ (if length self == 0 then TreeError.NoRoot else TreeError.Memory)) }
    {
        let TreeBuilder { nodes } = self;
        match spans_or_refusal(&nodes) {
            Ok(spans) => Ok(Tree { nodes, spans }),
            Err(refusal) => Err(refusal),
        }
    }
}

/// The spans of the affinities, where there is one.
fn spans_or_refusal(nodes: &Nodes) -> Result<Vec<Span>, TreeError>
    requires { IsRooted nodes.now }
    ensures spans { IfOk result (λ spans. AreNested nodes.now spans.items) }
    ensures some { OnOk result (0 < length nodes.now) }
    ensures refused { IfErr result (λ e.
        e ≡ (if length nodes.now == 0 then TreeError.NoRoot else TreeError.Memory)) }
{
    if nodes.len() == 0 {
        return Err(TreeError::NoRoot);
    }
    match spans_of(nodes) {
        Ok(spans) => Ok(spans),
        Err(_) => Err(TreeError::Memory),
    }
}

fn refusal(nodes: &Nodes, name: &str, parent: Option<u16>) -> Option<TreeError>
    ensures { result ≡ refusal_of nodes.now (record { name = name.now; parent = parent }) }
{
    if !is_name(name) {
        return Some(TreeError::Name);
    }
    if nodes.number(name).is_some() {
        return Some(TreeError::Twice);
    }
    match parent {
        None if nodes.len() > 0 => return Some(TreeError::SecondRoot),
        Some(p) if p as usize >= nodes.len() => return Some(TreeError::ParentUnknown),
        _ => {}
    }
    if nodes.len() >= MAX_AFFINITIES {
        return Some(TreeError::TooMany);
    }
    None
}

/// A tree of affinities.
#[derive(Drop)]
pub struct Tree {
    nodes: Nodes,
    spans: Vec<Span>,
}

impl Model for Tree {
    ghost use Rattle.std.specs.Prelude.{List};
    ghost use Rattle.waff_model.specs.Tree.{Node, IsTree};
    ghost use Rattle.waff_model.specs.Preorder.{AreNested};

    ghost Value = { List Node };

    ghost view = { λ t. t.nodes };

    ghost invariant = { λ t. IsTree t.nodes × AreNested t.nodes t.spans.items };
}

impl Tree {
    /// How many affinities there are.
    pub fn len(&self) -> u32
        ensures count { result ≡ length self.now }
        ensures tree { IsTree self.now }
    {
        self.nodes.len() as u32
    }

    /// The affinity at or above all others.
    pub fn root(&self) -> AffinityId
        ensures number { result.0 ≡ 0 }
        ensures root { parent_of self.now result.0 ≡ None }
    {
        // A look at a field tells the invariant of the tree.
        let _ = &self.nodes;
        AffinityId(0)
    }

    /// The parent of the affinity, None for the root.
    pub fn parent(&self, affinity: AffinityId) -> Option<AffinityId>
        requires { affinity.0 < length self.now }
        ensures { option_map (λ p. p.0) result ≡ parent_of self.now affinity.0 }
    {
        self.spans[affinity.0 as usize].parent.map(AffinityId)
    }

    /// The name of the affinity.
    pub fn name(&self, affinity: AffinityId) -> &str
        requires { affinity.0 < length self.now }
        ensures { result.now ≡ name_of self.now affinity.0 }
    {
        self.nodes.name(affinity.0 as usize)
    }

    /// The affinity with this name.
    pub fn find(&self, name: &str) -> Option<AffinityId>
        ensures found { option_map (λ a. a.0) result ≡ number_of self.now name.now }
        ensures within { IfSome result (λ a. a.0 < length self.now) }
    {
        match self.nodes.number(name) {
            Some(number) => Some(AffinityId(number as u16)),
            None => None,
        }
    }

    /// Whether `below` leads to `above` by zero or more steps to the parent.
    pub fn at_or_above(&self, above: AffinityId, below: AffinityId) -> bool
        requires above { above.0 < length self.now }
        requires below { below.0 < length self.now }
        ensures answer { IsTrue result ↔ AtOrAbove self.now above.0 below.0 }
        ensures tree { IsTree self.now }
    {
        self.spans[above.0 as usize].spans(&self.spans[below.0 as usize])
    }

    /// The span of each affinity in preorder, by its number: the affinities at or below one stand at
    /// the places from its `first` up to its `end`.
    pub fn spans(&self) -> &[Span]
        ensures { AreNested self.now result.now }
    {
        self.spans.as_slice()
    }

    /// Whether one of the two is at or above the other, so that their messages never run at the
    /// same time.
    pub fn excludes(&self, one: AffinityId, other: AffinityId) -> bool
        requires one { one.0 < length self.now }
        requires other { other.0 < length self.now }
        ensures { IsTrue result ↔ Excludes self.now one.0 other.0 }
    {
        self.at_or_above(one, other) || self.at_or_above(other, one)
    }
}
