ghost use Rattle.std.specs.Prelude.{◌≡◌, IfOk};

use bson_core::{Doc, Name, Value, copy_doc};
use sqlite_items::Items;
use std::alloc::{AllocError, Global};

/// What is done to a field.
#[derive(Clone, Copy, PartialEq, Eq)]
pub enum UpdateKind {
    /// It gets the value, at its place, or after the others where it isn't there.
    Set,
    /// Every field of the name is taken out.
    Unset,
    /// The value is added to it; where it isn't there, it gets the value.
    Inc,
}

impl UpdateKind {
    pub fn copy(&self) -> UpdateKind
        ensures { result ≡ self.now }
    {
        *self
    }
}

/// What is done to one field of a document.
#[derive(Drop)]
pub struct UpdateOp {
    pub kind: UpdateKind,
    pub name: Name,
    /// Null where the field is taken out.
    pub value: Value,
}

impl UpdateOp {
    pub fn copy(&self, alloc: Global) -> Result<UpdateOp, AllocError>
        ensures { IfOk result (λ o. o ≡ self.now) }
    {
        Ok(UpdateOp {
            kind: self.kind,
            name: self.name.copy(alloc)?,
            value: self.value.copy(alloc)?,
        })
    }
}

/// What is done to the fields of a document, one after the other.
pub type UpdateOps = Items<UpdateOp>;

/// What is done to a document.
#[derive(Drop)]
pub enum Update {
    /// This document takes its place, under the old `_id`.
    Replace(Doc),
    Ops(UpdateOps),
}

impl Update {
    pub fn copy(&self, alloc: Global) -> Result<Update, AllocError>
        ensures { IfOk result (λ u. u ≡ self.now) }
    {
        match self {
            Update::Replace(doc) => Ok(Update::Replace(copy_doc(alloc, doc)?)),
            Update::Ops(ops) => Ok(Update::Ops(copy_update_ops(alloc, ops)?)),
        }
    }
}

/// Equal operators.
pub fn copy_update_ops(alloc: Global, ops: &UpdateOps) -> Result<UpdateOps, AllocError>
    ensures { IfOk result (λ o. o ≡ ops.now) }
{
    let mut copy = Vec::new(alloc);
    for op in ops.as_slice() {
        copy.push(op.copy(alloc)?)?;
    }
    Ok(Items::from_vec(copy))
}
