//! What comes of a message at a shard, and the room for the envelopes that it gives out.
ghost use Rattle.std.specs.Prelude.{◌≡◌, ◌≤◌, ◌<◌, ◌+◌, ◌++◌, [], ◌∷◌, None, vec_len, vec_capacity};
ghost use Rattle.txn_types.specs.Letters.{all_sent_by};
ghost use Rattle.txn_types.specs.declared.node.NodeId.TheVariants as node;

use journal_rec::Rec;
use sqlite_items::Items;
use std::alloc::{AllocError, Global};
use txn_types::{Envelope, Envelopes, Msg, NodeId, Outcome, Tag, Told, Ts};
use version_store::Held;

/// The record that a message makes, what is sent once it is durable, and the document that is held,
/// where the event is to come again.
#[derive(Drop)]
pub struct Given {
    pub rec: Option<Rec>,
    pub out: Envelopes,
    pub held: Option<Held>,
}

impl Given {
    /// Nothing is given out.
    pub fn quiet(alloc: Global) -> Given
        ensures { result ≡ record { rec = None; out = []; held = None } }
    {
        Given {
            rec: None,
            out: Items::new(alloc),
            held: None,
        }
    }

    /// Messages, and no record.
    pub fn sends(out: Envelopes) -> Given
        ensures { result ≡ record { rec = None; out = out; held = None } }
    {
        Given {
            rec: None,
            out,
            held: None,
        }
    }
}

/// Puts an envelope where there is room for it.
pub fn put(out: &mut Vec<Envelope>, envelope: Envelope)
    requires { vec_len out.old < vec_capacity out.old }
    ensures items { out.new.items ≡ out.old.items ++ envelope ∷ [] }
    ensures len { vec_len out.new ≡ vec_len out.old + 1 }
    ensures capacity { vec_capacity out.old ≤ vec_capacity out.new }
{
    let _kept = out.push(envelope);
}

/// Room for one envelope, taken before anything changes.
#[derive(Drop)]
pub struct Slip {
    envelopes: Vec<Envelope>,
    ghost none: { envelopes.items ≡ [] },
    ghost empty: { vec_len envelopes ≡ 0 },
    ghost room: { 0 < vec_capacity envelopes },
}

impl Slip {
    pub fn new(alloc: Global) -> Result<Slip, AllocError> {
        Ok(Slip {
            envelopes: Vec::with_capacity(alloc, 1)?,
        })
    }

    /// The one envelope.
    pub fn fill(self, envelope: Envelope) -> Envelopes
        ensures { result ≡ envelope ∷ [] }
    {
        let Slip { mut envelopes } = self;
        put(&mut envelopes, envelope);
        Items::from_vec(envelopes)
    }

    /// A message of a shard, at its clock.
    pub fn send(self, shard: u16, time: Ts, to: NodeId, msg: Msg) -> Envelopes
        ensures { result ≡ all_sent_by (node.Shard shard) time ((to, msg) ∷ []) }
    {
        self.fill(Envelope {
            from: NodeId::Shard(shard),
            to,
            time,
            msg,
        })
    }
}

/// What is told of a transaction's end.
pub fn outcome(tag: Tag, shard: u16, boot: u32, told: Told) -> Msg
    ensures { result ≡ Msg.Outcome (record { tag = tag; shard = shard; boot = boot; told = told }) }
{
    Msg::Outcome(Outcome {
        tag,
        shard,
        boot,
        told,
    })
}
