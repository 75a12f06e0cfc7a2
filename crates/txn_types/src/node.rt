ghost use Rattle.std.specs.Prelude.{◌≡◌};

/// A node of a cluster, by its kind and its number.
#[derive(Clone, Copy, PartialEq, Eq)]
pub enum NodeId {
    Shard(u16),
    Router(u16),
}

impl NodeId {
    pub fn copy(&self) -> NodeId
        ensures { result ≡ self.now }
    {
        *self
    }
}

/// A session: one that a client named by 16 bytes, or the own one of a router's connection, for
/// plain commands.
#[derive(Clone, Copy, PartialEq, Eq)]
pub enum Lsid {
    Client([u8; 16]),
    Own { router: u16, boot: u32, conn: u32 },
}

impl Lsid {
    pub fn copy(&self) -> Lsid
        ensures { result ≡ self.now }
    {
        *self
    }
}
