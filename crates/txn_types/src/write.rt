ghost use Rattle.std.specs.Prelude.{◌≡◌, [], ◌∷◌, ◌++◌, IfOk, OnOk, OnErr};
ghost use Rattle.txn_types.specs.Writes.{HasOwnId, AllHaveOwnIds};

use crate::id::Id;
use crate::names::Ns;
use bson_core::{Doc, copy_doc};
use std::alloc::{AllocError, Global};
use std::marker::Model;

/// What a transaction does to one document.
#[derive(Drop)]
pub enum Write {
    /// The document stands, in place of one of this id.
    Put { ns: Ns, id: Id, doc: Doc },
    /// There is no document of this id.
    Delete { ns: Ns, id: Id },
}

impl Write {
    pub fn copy(&self, alloc: Global) -> Result<Write, AllocError>
        ensures { IfOk result (λ w. w ≡ self.now) }
    {
        match self {
            Write::Put { ns, id, doc } => Ok(Write::Put {
                ns: ns.copy(alloc)?,
                id: id.copy(alloc)?,
                doc: copy_doc(alloc, doc)?,
            }),
            Write::Delete { ns, id } => Ok(Write::Delete {
                ns: ns.copy(alloc)?,
                id: id.copy(alloc)?,
            }),
        }
    }
}

/// Writes, in their order. The id of each document that is put is the document's `_id`.
#[derive(Drop)]
pub struct Writes {
    writes: Vec<Write>,
}

impl Model for Writes {
    ghost use Rattle.std.specs.Prelude.{List};
    ghost use Rattle.std.specs.Coded.{codes};
    ghost use Rattle.bson_core.specs.contracts.value.Value as value;
    ghost use Rattle.txn_types.specs.declared.write.Write.{Write};

    ghost Value = { List Write };

    ghost coded = { Prim.hlevel (codes, value.the_row.coded) };

    ghost use Rattle.txn_types.specs.Writes.{AllHaveOwnIds};

    ghost view = { λ w. w.writes.items };

    ghost invariant = { λ w. AllHaveOwnIds w.writes.items };
}

impl Writes {
    pub fn new(alloc: Global) -> Writes
        ensures { result ≡ [] }
    {
        Writes {
            writes: Vec::new(alloc),
        }
    }

    pub fn push(&mut self, write: Write) -> Result<(), AllocError>
        requires { HasOwnId write }
        ensures ok { OnOk result (self.new ≡ self.old ++ write ∷ []) }
        ensures err { OnErr result (self.new ≡ self.old) }
    {
        self.writes.push(write)?;
        Ok(())
    }

    pub fn as_slice(&self) -> &[Write]
        ensures writes { result.now ≡ self.now }
        ensures kept { AllHaveOwnIds self.now }
    {
        self.writes.as_slice()
    }

    pub fn copy(&self, alloc: Global) -> Result<Writes, AllocError>
        ensures { IfOk result (λ w. w ≡ self.now) }
    {
        let mut writes = Vec::new(alloc);
        for write in self.writes.as_slice() {
            writes.push(write.copy(alloc)?)?;
        }
        Ok(Writes { writes })
    }
}
