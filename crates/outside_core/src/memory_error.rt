use std::alloc::AllocError;

/// Why an object of the outside couldn't be made.
#[derive(Clone, Copy, Debug, PartialEq, Eq)]
pub enum MemErr {
    /// There was no memory for it.
    Memory,
}

impl From<AllocError> for MemErr {
    fn from(_: AllocError) -> Self {
        MemErr::Memory
    }
}
