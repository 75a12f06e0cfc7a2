ghost use Rattle.std.specs.Prelude.{◌≡◌, [], ◌∷◌, ◌++◌, IfOk, IsSome, OnOk, OnErr};
ghost use Rattle.txn_types.specs.Ids.{id_in};
ghost use Rattle.txn_types.specs.Items.{AllHaveIds};

use crate::filter::Filter;
use crate::id::Id;
use crate::names::Ns;
use crate::update::Update;
use bson_core::{Doc, copy_doc};
use sqlite_items::Items;
use std::alloc::{AllocError, Global};
use std::marker::Model;

/// A document to insert, and its place in the command.
#[derive(Drop)]
pub struct InsertItem {
    pub index: u32,
    pub doc: Doc,
}

impl InsertItem {
    pub fn copy(&self, alloc: Global) -> Result<InsertItem, AllocError>
        ensures { IfOk result (λ i. i ≡ self.now) }
    {
        Ok(InsertItem {
            index: self.index,
            doc: copy_doc(alloc, &self.doc)?,
        })
    }
}

/// The documents of an insert, in their order. Each has an `_id` that is an id.
#[derive(Drop)]
pub struct InsertItems {
    items: Vec<InsertItem>,
}

impl Model for InsertItems {
    ghost use Rattle.std.specs.Prelude.{List};
    ghost use Rattle.std.specs.Coded.{codes};
    ghost use Rattle.bson_core.specs.contracts.value.Value as value;
    ghost use Rattle.txn_types.specs.declared.operation.InsertItem.{InsertItem};

    ghost Value = { List InsertItem };

    ghost coded = { Prim.hlevel (codes, value.the_row.coded) };

    ghost use Rattle.txn_types.specs.Items.{AllHaveIds};

    ghost view = { λ i. i.items.items };

    ghost invariant = { λ i. AllHaveIds i.items.items };
}

impl InsertItems {
    pub fn new(alloc: Global) -> InsertItems
        ensures { result ≡ [] }
    {
        InsertItems {
            items: Vec::new(alloc),
        }
    }

    pub fn push(&mut self, item: InsertItem) -> Result<(), AllocError>
        requires { IsSome (id_in item.doc) }
        ensures ok { OnOk result (self.new ≡ self.old ++ item ∷ []) }
        ensures err { OnErr result (self.new ≡ self.old) }
    {
        self.items.push(item)?;
        Ok(())
    }

    pub fn as_slice(&self) -> &[InsertItem]
        ensures items { result.now ≡ self.now }
        ensures ids { AllHaveIds self.now }
    {
        self.items.as_slice()
    }

    pub fn copy(&self, alloc: Global) -> Result<InsertItems, AllocError>
        ensures { IfOk result (λ i. i ≡ self.now) }
    {
        let mut items = Vec::new(alloc);
        for item in self.items.as_slice() {
            items.push(item.copy(alloc)?)?;
        }
        Ok(InsertItems { items })
    }
}

/// A filter, and what is done to the documents that match it: to all of them, or to the one of the
/// least id. `index` is the item's place in the command.
#[derive(Drop)]
pub struct UpdateItem {
    pub index: u32,
    pub filter: Filter,
    pub update: Update,
    pub many: bool,
}

impl UpdateItem {
    pub fn copy(&self, alloc: Global) -> Result<UpdateItem, AllocError>
        ensures { IfOk result (λ i. i ≡ self.now) }
    {
        Ok(UpdateItem {
            index: self.index,
            filter: self.filter.copy(alloc)?,
            update: self.update.copy(alloc)?,
            many: self.many,
        })
    }
}

/// The items of an update, in their order.
pub type UpdateItems = Items<UpdateItem>;

/// Equal items.
pub fn copy_update_items(alloc: Global, items: &UpdateItems) -> Result<UpdateItems, AllocError>
    ensures { IfOk result (λ i. i ≡ items.now) }
{
    let mut copy = Vec::new(alloc);
    for item in items.as_slice() {
        copy.push(item.copy(alloc)?)?;
    }
    Ok(Items::from_vec(copy))
}

/// A filter whose documents are deleted: all of them, or the one of the least id. `index` is the
/// item's place in the command.
#[derive(Drop)]
pub struct DeleteItem {
    pub index: u32,
    pub filter: Filter,
    pub many: bool,
}

impl DeleteItem {
    pub fn copy(&self, alloc: Global) -> Result<DeleteItem, AllocError>
        ensures { IfOk result (λ i. i ≡ self.now) }
    {
        Ok(DeleteItem {
            index: self.index,
            filter: self.filter.copy(alloc)?,
            many: self.many,
        })
    }
}

/// The items of a delete, in their order.
pub type DeleteItems = Items<DeleteItem>;

/// Equal items.
pub fn copy_delete_items(alloc: Global, items: &DeleteItems) -> Result<DeleteItems, AllocError>
    ensures { IfOk result (λ i. i ≡ items.now) }
{
    let mut copy = Vec::new(alloc);
    for item in items.as_slice() {
        copy.push(item.copy(alloc)?)?;
    }
    Ok(Items::from_vec(copy))
}

/// A statement's operation on one collection.
#[derive(Drop)]
pub enum Op {
    Insert {
        ns: Ns,
        docs: InsertItems,
    },
    /// The documents that match, rising by id, or falling where `down`; at most `limit` of them, or
    /// all where it is 0.
    Find {
        ns: Ns,
        filter: Filter,
        down: bool,
        limit: u64,
    },
    Update {
        ns: Ns,
        items: UpdateItems,
    },
    Delete {
        ns: Ns,
        items: DeleteItems,
    },
}

impl Op {
    pub fn copy(&self, alloc: Global) -> Result<Op, AllocError>
        ensures { IfOk result (λ o. o ≡ self.now) }
    {
        match self {
            Op::Insert { ns, docs } => Ok(Op::Insert {
                ns: ns.copy(alloc)?,
                docs: docs.copy(alloc)?,
            }),
            Op::Find {
                ns,
                filter,
                down,
                limit,
            } => Ok(Op::Find {
                ns: ns.copy(alloc)?,
                filter: filter.copy(alloc)?,
                down: *down,
                limit: *limit,
            }),
            Op::Update { ns, items } => Ok(Op::Update {
                ns: ns.copy(alloc)?,
                items: copy_update_items(alloc, items)?,
            }),
            Op::Delete { ns, items } => Ok(Op::Delete {
                ns: ns.copy(alloc)?,
                items: copy_delete_items(alloc, items)?,
            }),
        }
    }
}

/// Documents, in their order.
pub type Docs = Items<Doc>;

/// Equal documents.
pub fn copy_docs(alloc: Global, docs: &Docs) -> Result<Docs, AllocError>
    ensures { IfOk result (λ d. d ≡ docs.now) }
{
    let mut copy = Vec::new(alloc);
    for doc in docs.as_slice() {
        copy.push(copy_doc(alloc, doc)?)?;
    }
    Ok(Items::from_vec(copy))
}

fn copy_cut(alloc: Global, cut: &Option<Id>) -> Result<Option<Id>, AllocError>
    ensures { IfOk result (λ c. c ≡ cut.now) }
{
    match cut {
        Some(id) => Ok(Some(id.copy(alloc)?)),
        None => Ok(None),
    }
}

/// What an operation is answered.
#[derive(Drop)]
pub enum OpReply {
    /// How many documents it met, and how many of them it changed. Both stand still at 2^63 - 1.
    Count { n: u64, modified: u64 },
    /// The documents that were found. Where not all fit into one answer, `cut` is the id of the
    /// next.
    Rows { docs: Docs, cut: Option<Id> },
}

impl OpReply {
    pub fn copy(&self, alloc: Global) -> Result<OpReply, AllocError>
        ensures { IfOk result (λ r. r ≡ self.now) }
    {
        match self {
            OpReply::Count { n, modified } => Ok(OpReply::Count {
                n: *n,
                modified: *modified,
            }),
            OpReply::Rows { docs, cut } => Ok(OpReply::Rows {
                docs: copy_docs(alloc, docs)?,
                cut: copy_cut(alloc, cut)?,
            }),
        }
    }
}

/// Why an operation is refused.
#[derive(Clone, Copy, PartialEq, Eq)]
pub enum What {
    /// A document of this id stands.
    Duplicate,
    /// A number is to be added to a field that is none, or what is to be added is no number.
    NotNumber,
    /// A sum doesn't fit an int64.
    Overflow,
    /// The `_id` would change.
    Immutable,
    /// The document would have more than 16,777,216 bytes.
    TooLarge,
}

impl What {
    pub fn copy(&self) -> What
        ensures { result ≡ self.now }
    {
        *self
    }
}

/// The refusal of an operation: the item's place in the command, the document's id, and why.
#[derive(Drop)]
pub struct OpErr {
    pub index: u32,
    pub id: Id,
    pub what: What,
}

impl OpErr {
    pub fn copy(&self, alloc: Global) -> Result<OpErr, AllocError>
        ensures { IfOk result (λ e. e ≡ self.now) }
    {
        Ok(OpErr {
            index: self.index,
            id: self.id.copy(alloc)?,
            what: self.what,
        })
    }
}
