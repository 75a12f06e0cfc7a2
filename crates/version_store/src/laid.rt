use crate::key::Key;
use crate::version::Version;

/// A write that was put: its key, and the transaction's older version that it replaced.
#[derive(Drop)]
pub struct Laid {
    pub key: Key,
    pub replaced: Option<Version>,
}
