//! Times, nodes, sessions and transactions as text. But for a node, each begins with a space.
use std::alloc::{AllocError, Global};
use txn_types::{Lsid, NodeId, Tag, Ts};

/// `SECONDS.COUNT`.
pub fn put_time(out: &mut String, at: Ts) -> Result<(), AllocError> {
    let (seconds, increment) = (at.0 >> 32, at.0 & 0xffff_ffff);
    write!(out, " {seconds}.{increment}")
}

/// `tag ROUTER.BOOT.SERIAL`.
pub fn put_tag(out: &mut String, tag: Tag) -> Result<(), AllocError> {
    let (router, boot, serial) = (tag.router, tag.boot, tag.serial);
    write!(out, " tag {router}.{boot}.{serial}")
}

/// `sN` for a shard, `rN` for a router.
pub fn put_node(out: &mut String, node: NodeId) -> Result<(), AllocError> {
    match node {
        NodeId::Shard(number) => write!(out, "s{number}"),
        NodeId::Router(number) => write!(out, "r{number}"),
    }
}

/// `session client:BYTES` in hexadecimal digits, or `session own:ROUTER.BOOT.CONNECTION`.
pub fn put_session(alloc: Global, out: &mut String, lsid: &Lsid) -> Result<(), AllocError> {
    match lsid {
        Lsid::Client(bytes) => {
            let digits = hex::encode(alloc, bytes.as_slice())?;
            write!(out, " session client:{digits}")
        }
        Lsid::Own { router, boot, conn } => write!(out, " session own:{router}.{boot}.{conn}"),
    }
}

/// A transaction by its tag, its session and its number there.
pub fn put_named(
    alloc: Global,
    out: &mut String,
    tag: Tag,
    lsid: &Lsid,
    number: i64,
) -> Result<(), AllocError> {
    put_tag(out, tag)?;
    put_session(alloc, out, lsid)?;
    write!(out, " number {number}")
}

/// Participants, each with the boot at which it began: `parts SHARD@BOOT ..`.
pub fn put_parts(out: &mut String, parts: &[(u16, u32)]) -> Result<(), AllocError> {
    out.push_str(" parts")?;
    for (shard, boot) in parts {
        write!(out, " {shard}@{boot}")?;
    }
    Ok(())
}
