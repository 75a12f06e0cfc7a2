ghost use Rattle.std.specs.Prelude.{◌≡◌};

use sqlite_items::Items;
use txn_types::{Lsid, Op, Token, Ts};

/// A transaction of several statements, by its session and its number there; and whether the
/// request starts it.
#[derive(Clone, Copy)]
pub struct Txn {
    pub lsid: Lsid,
    pub number: i64,
    pub start: bool,
}

impl Txn {
    pub fn copy(&self) -> Txn
        ensures { result ≡ self.now }
    {
        *self
    }
}

/// Sessions, in their order.
pub type Lsids = Items<Lsid>;

/// What a client asks. In each, `more` is the flag moreToCome, and `time` the cluster time that the
/// client has seen.
#[derive(Drop)]
pub enum Request {
    /// Whether the server is there.
    Ping {
        more: bool,
        time: Option<Ts>,
    },
    /// What the server is; by an older name of the command where `old_name`.
    Hello {
        old_name: bool,
        more: bool,
        time: Option<Ts>,
    },
    /// An operation on a collection: of a transaction, or one by itself where there is none. `at`
    /// is the time to read at, and `after` one that is to be seen.
    Statement {
        op: Op,
        txn: Option<Txn>,
        at: Option<Ts>,
        after: Option<Ts>,
        more: bool,
        time: Option<Ts>,
    },
    Commit {
        txn: Option<Txn>,
        token: Option<Token>,
        more: bool,
        time: Option<Ts>,
    },
    Abort {
        txn: Option<Txn>,
        more: bool,
        time: Option<Ts>,
    },
    EndSessions {
        ids: Lsids,
        more: bool,
        time: Option<Ts>,
    },
}
