//! Streams that are cut into messages.

use crate::faults::message_fault;
use op_msg::{Feeder, FrameErr};
use std::alloc::{AllocError, Global};

/// A Feeder with the limit of these digits.
pub fn feeder_of(alloc: Global, limit: &str) -> Feeder {
    Feeder::new(alloc, limit.parse::<u32>().unwrap_or(0))
}

/// Feeds the bytes of these digits.
pub fn feed(alloc: Global, feeder: &mut Feeder, digits: &str) -> Result<(), AllocError> {
    let Ok(bytes) = hex::decode(alloc, digits) else {
        return Ok(());
    };
    match feeder.feed(bytes.as_slice()) {
        Ok(()) => Ok(()),
        Err(_) => Err(AllocError),
    }
}

/// The next message, `none`, or the refusal.
pub fn next(alloc: Global, feeder: &mut Feeder) -> Result<String, AllocError> {
    match feeder.next() {
        Ok(Some(message)) => hex::encode(alloc, message.as_slice()),
        Ok(None) => String::from_str(alloc, "none"),
        Err(FrameErr::Memory) => Err(AllocError),
        Err(fault) => message_fault(alloc, fault),
    }
}
