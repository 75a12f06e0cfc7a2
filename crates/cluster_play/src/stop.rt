//! Why a playing stopped in front of its schedule's end.
use record_store::NodeErr;
use txn_types::NodeId;

/// Why the text was cut short.
#[derive(Clone, Copy)]
pub enum Cut {
    /// The sink failed.
    WriteFault,
    /// There was no memory.
    Memory,
}

/// Why the playing stopped.
pub enum Stop<D> {
    /// The text was cut short.
    Cut(Cut),
    /// The node didn't start again, for this reason; its disk is left.
    Lone {
        node: NodeId,
        error: NodeErr,
        disk: D,
    },
}
