use std::alloc::AllocError;

/// Why a text was not made.
#[derive(Clone, Copy, Debug, PartialEq, Eq)]
pub enum TextErr {
    /// There was no memory.
    Memory,
}

impl From<AllocError> for TextErr {
    fn from(_e: AllocError) -> TextErr {
        TextErr::Memory
    }
}
