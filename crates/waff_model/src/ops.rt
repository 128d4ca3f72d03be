//! The operations of a message.

ghost use Rattle.std.specs.Prelude.{◌≡◌, ◌<◌, ◌↔◌, [], ◌∷◌, ◌++◌, length, Some, IsTrue, OnOk};
ghost use Rattle.std.specs.Prelude.{OnErr, IfOk, slice_get, map};
ghost use Rattle.waff_model.specs.KeptOps.{kept_ops};
ghost use Rattle.waff_model.specs.PackedOps.{op_of};

use crate::op::Op;
use crate::packed_op::PackedOp;
use std::alloc::{AllocError, Global};
use std::marker::Model;

/// The operations of a message, in the order in which they run.
pub struct Ops {
    alloc: Global,
    kept: Kept,
}

// Where operations are kept. A single one lies in the value itself, so that those of many messages
// are not as many allocations. They are packed as long as their numbers are small.
#[derive(Drop)]
enum Kept {
    One(PackedOp),
    Packed(Vec<PackedOp>),
    Plain(Vec<Op>),
}

impl Model for Ops {
    ghost use Rattle.std.specs.Prelude.{List};
    ghost use Rattle.waff_model.specs.KeptOps.{kept_ops};
    ghost use Rattle.waff_model.specs.declared.op.Op.{Op};

    ghost Value = { List Op };

    ghost view = { λ ops. kept_ops ops.kept };
}

// Written out: a derived drop is proved again in each crate that lets go of the value.
impl Drop for Ops {
    fn drop(self) {
        let Ops { alloc: _, kept } = self;
        drop(kept);
    }
}

impl Ops {
    /// No operation.
    pub fn new(alloc: Global) -> Self
        ensures { result ≡ [] }
    {
        Ops {
            alloc,
            kept: Kept::Packed(Vec::new(alloc)),
        }
    }

    /// No operation, with room for so many.
    pub fn with_capacity(alloc: Global, room: usize) -> Result<Self, AllocError>
        ensures { IfOk result (λ ops. ops ≡ []) }
    {
        if room < 2 {
            return Ok(Ops::new(alloc));
        }
        let list = Vec::with_capacity(alloc, room)?;
        Ok(Ops {
            alloc,
            kept: Kept::Packed(list),
        })
    }

    /// Appends an operation.
    pub fn push(&mut self, op: Op) -> Result<(), AllocError>
        ensures pushed { OnOk result (self.new ≡ self.old ++ op ∷ []) }
        ensures unchanged { OnErr result (self.new ≡ self.old) }
    {
        match PackedOp::of(op) {
            Some(packed) => push_packed(self.alloc, &mut self.kept, packed),
            None => push_plain(self.alloc, &mut self.kept, op),
        }
    }

    /// How many operations there are.
    pub fn len(&self) -> usize
        ensures { result ≡ length self.now }
    {
        self.kept.len()
    }

    /// Whether there is no operation.
    pub fn is_empty(&self) -> bool
        ensures { IsTrue result ↔ (self.now ≡ []) }
    {
        self.len() == 0
    }

    /// The operation at an index, from 0.
    pub fn get(&self, index: usize) -> Op
        requires { index < length self.now }
        ensures { slice_get self.now index ≡ Some result }
    {
        self.kept.get(index)
    }
}

impl Kept {
    fn len(&self) -> usize
        ensures { result ≡ length (kept_ops self.now) }
    {
        match self {
            Kept::One(_) => 1,
            Kept::Packed(list) => list.len(),
            Kept::Plain(list) => list.len(),
        }
    }

    fn get(&self, index: usize) -> Op
        requires { index < length (kept_ops self.now) }
        ensures { slice_get (kept_ops self.now) index ≡ Some result }
    {
        match self {
            Kept::One(packed) => packed.op(),
            Kept::Packed(list) => list[index].op(),
            Kept::Plain(list) => list[index],
        }
    }
}

// Appends a packed operation.
fn push_packed(alloc: Global, kept: &mut Kept, op: PackedOp) -> Result<(), AllocError>
    ensures pushed { OnOk result (kept_ops kept.new ≡ kept_ops kept.old ++ op_of op ∷ []) }
    ensures unchanged { OnErr result (kept_ops kept.new ≡ kept_ops kept.old) }
{
    match kept {
        Kept::One(first) => {
            let list = vec![in alloc; *first, op]?;
            *kept = Kept::Packed(list);
        }
        Kept::Packed(list) => {
            if list.capacity() == 0 {
                *kept = Kept::One(op);
            } else {
                list.push(op)?;
            }
        }
        Kept::Plain(list) => list.push(op.op())?,
    }
    Ok(())
}

// Appends an operation that is not packed, so that none is.
fn push_plain(alloc: Global, kept: &mut Kept, op: Op) -> Result<(), AllocError>
    ensures pushed { OnOk result (kept_ops kept.new ≡ kept_ops kept.old ++ op ∷ []) }
    ensures unchanged { OnErr result (kept_ops kept.new ≡ kept_ops kept.old) }
{
    match kept {
        Kept::One(first) => {
            let list = vec![in alloc; first.op(), op]?;
            *kept = Kept::Plain(list);
        }
        Kept::Packed(first) => {
            let mut list = unpacked(alloc, first)?;
            list.push(op)?;
            *kept = Kept::Plain(list);
        }
        Kept::Plain(list) => list.push(op)?,
    }
    Ok(())
}

fn unpacked(alloc: Global, packed: &[PackedOp]) -> Result<Vec<Op>, AllocError>
    ensures { IfOk result (λ list. list.items ≡ map op_of packed.now) }
{
    packed.iter().map(|op| op.op()).collect(alloc)
}
