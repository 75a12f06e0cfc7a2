use txn_types::{NodeAnswer, NodeEvent, NodeId};

/// What happened in a run of a cluster.
#[derive(Drop)]
pub enum Ran {
    /// A node took an event and answered it. `faults` is how often the node's disk has failed by
    /// then, since the disk was new, and 0 for a router.
    Step {
        node: NodeId,
        event: NodeEvent,
        answer: NodeAnswer,
        faults: u64,
    },
    /// A node was replaced by one that started from what its disk held.
    Swapped {
        node: NodeId,
    },
}
