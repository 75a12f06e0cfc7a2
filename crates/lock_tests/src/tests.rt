use crate::connections::serve_both;
use crate::flag::Flag;
use crate::gate::GateLink;
use crate::shares::two_calls;
use node_lock::NodeLock;
use node_server::Ended;
use outside_core::PipeLink;
use std::alloc::{AllocError, Global};
use std::sync::atomic::AtomicU64;
use std::test::Fail;

// A message of 17 bytes, whose last asks for the flag, 0, or sets it, 1.
fn message(alloc: Global, ask: u8) -> Result<Vec<u8>, AllocError> {
    let mut bytes = Vec::from_slice(alloc, &[17, 0, 0, 0, 0, 0, 0, 0, 0, 0, 0, 0, 0, 0, 0, 0])?;
    bytes.push(ask)?;
    Ok(bytes)
}

/// The first connection asks for the flag, and is held until the second sets it, whose peer sends
/// only once the first was held. Served one after the other, the second's gate would fail after
/// 1,000,000 turns.
#[test]
fn prepare_wait_small(rt: HostRuntime) -> Result<(), Fail> {
    let alloc = rt.alloc();
    let Ok((lock, pass)) = NodeLock::new(alloc, Flag::new(), 2) else {
        return Err(AllocError.into());
    };
    let open = AtomicU64::new(1);
    let gate = AtomicU64::new(0);
    let asks = PipeLink::of(alloc, message(alloc, 0)?, Vec::new(alloc));
    let sets = PipeLink::of(alloc, message(alloc, 1)?, Vec::new(alloc));
    let first = GateLink::of(asks, &open);
    let second = GateLink::of(sets, &gate);
    let (first, second) = serve_both(&rt, alloc, &lock, pass, first, second, &gate);
    assert_eq!(rt; first.ended, Ended::Done);
    assert_eq!(rt; second.ended, Ended::Done);
    assert!(rt; first.replied && second.replied);
    assert_eq!(rt; first.calls, 2);
    assert_eq!(rt; second.calls, 1);
    Ok(())
}

/// A lock of three shares: two passes are cut off, each makes a call, both are met, and the history
/// has two calls.
#[test]
fn passes_meet(rt: HostRuntime) -> Result<(), Fail> {
    let Ok((lock, mut pass)) = NodeLock::new(rt.alloc(), Flag::new(), 3) else {
        return Err(AllocError.into());
    };
    assert_eq!(rt; two_calls(&rt, &lock, &mut pass), 2);
    Ok(())
}
