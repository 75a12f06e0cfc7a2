use txn_types::{Decision, Lsid, Parts, Tag, Ts, Writes};

/// A participant has the decision of a transaction.
#[derive(Clone, Copy)]
pub struct Decided {
    pub tag: Tag,
    pub lsid: Lsid,
    pub number: i64,
    pub decision: Decision,
}

/// A record of a node's journal. Kinds are numbered from 1 in this order.
#[derive(Drop)]
pub enum Rec {
    /// The node started.
    Boot {
        boot: u32,
    },
    /// The clock may go up to this time.
    Ceiling {
        bound: Ts,
    },
    /// A transaction of this shard alone commits.
    Commit {
        tag: Tag,
        lsid: Lsid,
        number: i64,
        read_at: Ts,
        at: Ts,
        writes: Writes,
    },
    /// A participant is prepared to commit from `at` on.
    Prepared {
        tag: Tag,
        lsid: Lsid,
        number: i64,
        boot: u32,
        read_at: Ts,
        at: Ts,
        coordinator: u16,
        writes: Writes,
    },
    Decided(Decided),
    /// This shard coordinates the commit of these participants.
    CoordStart {
        tag: Tag,
        lsid: Lsid,
        number: i64,
        parts: Parts,
    },
    /// The coordinator decides.
    CoordDecision {
        tag: Tag,
        decision: Decision,
    },
    /// Each participant has the decision.
    CoordEnd {
        tag: Tag,
    },
    /// Versions below the newest one at or below this time are no longer kept.
    Floor {
        floor: Ts,
    },
}
