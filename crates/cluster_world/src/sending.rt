//! Messages that a node gave out.
ghost use Rattle.std.specs.Prelude.{◌≡◌, ◌++◌, OnOk};
ghost use Rattle.txn_types.specs.Letters.{given_out};

use std::alloc::{AllocError, Global};
use txn_types::{Envelope, NodeAnswer};

/// Puts copies of messages after others.
fn put_all(alloc: Global, sent: &mut Vec<Envelope>, out: &[Envelope]) -> Result<(), AllocError>
    ensures { OnOk result (sent.new.items ≡ sent.old.items ++ out.now) }
{
    for envelope in out {
        sent.push(envelope.copy(alloc)?)?;
    }
    Ok(())
}

/// Puts copies of what a node gave out after what was sent before.
pub fn send(alloc: Global, sent: &mut Vec<Envelope>, answer: &NodeAnswer) -> Result<(), AllocError>
    ensures { OnOk result (sent.new.items ≡ sent.old.items ++ given_out answer.now) }
{
    match answer {
        NodeAnswer::Did { out, .. } => put_all(alloc, sent, out.as_slice()),
        _ => Ok(()),
    }
}
