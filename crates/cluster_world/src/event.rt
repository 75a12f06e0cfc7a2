use txn_types::{NodeAnswer, NodeEvent, NodeId};

/// What is to happen in a cluster.
#[derive(Drop)]
pub enum WorldEvent {
    /// This node takes this event, which is no delivery.
    At { node: NodeId, event: NodeEvent },
    /// The message of this number, counted from 0 as they were sent, is delivered to its node;
    /// `wall` is the moment, in seconds since 1970.
    Deliver { number: u64, wall: u32 },
}

/// What happened.
#[derive(Drop)]
pub struct WorldAnswer {
    /// The node that took the event.
    pub node: NodeId,
    /// What it answered.
    pub answer: NodeAnswer,
    /// How many messages were sent before, and so the number of the first that was sent in it.
    pub first: u64,
}
