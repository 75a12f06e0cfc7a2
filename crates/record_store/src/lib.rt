//! Logs of a node's records: on a disk, whose journal holds each record before its append returns,
//! or in a list.
#![tactic(auto)]

mod disk_log;
mod error;
mod frames;
mod list_log;
mod log;
mod payload;
mod reading;

pub use disk_log::DiskLog;
pub use error::NodeErr;
pub use list_log::ListLog;
pub use log::RecordLog;
pub use payload::Payload;
