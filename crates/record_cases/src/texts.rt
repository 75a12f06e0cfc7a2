//! Records and refusals as text.
use case_texts::{put_document, put_named, put_parts, put_tag, put_time};
use journal_rec::{Rec, RecErr};
use std::alloc::{AllocError, Global};
use txn_types::{Decision, Id, Ts, Write};

/// Why bytes are no record, with its place or its byte.
pub fn fault_text(alloc: Global, error: RecErr) -> Result<String, AllocError> {
    match error {
        RecErr::Kind { byte } => format!(in alloc; "kind {byte}"),
        RecErr::Short => String::from_str(alloc, "short"),
        RecErr::Extra { at } => format!(in alloc; "extra {at}"),
        RecErr::Field { at } => format!(in alloc; "field {at}"),
        RecErr::Bson { at } => format!(in alloc; "bson {at}"),
        RecErr::Order { at } => format!(in alloc; "order {at}"),
        RecErr::Memory => Err(AllocError),
    }
}

fn put_times(out: &mut String, read_at: Ts, at: Ts) -> Result<(), AllocError> {
    out.push_str(" read")?;
    put_time(out, read_at)?;
    out.push_str(" at")?;
    put_time(out, at)
}

fn put_decision(out: &mut String, decision: &Decision) -> Result<(), AllocError> {
    match decision {
        Decision::Commit(at) => {
            out.push_str(" commit")?;
            put_time(out, *at)
        }
        Decision::Abort { shard, code } => write!(out, " abort shard {shard} cause {code}"),
    }
}

fn put_id(out: &mut String, id: &Id) -> Result<(), AllocError> {
    match id {
        Id::Num(number) => write!(out, " number {number}"),
        Id::Text(text) => {
            let text = text.as_str();
            write!(out, " text {text}")
        }
        Id::Bin(_) => out.push_str(" binary"),
        Id::Oid(_) => out.push_str(" object id"),
        Id::Bool(flag) => write!(out, " bool {flag}"),
        Id::Date(moment) => write!(out, " date {moment}"),
    }
}

fn put_write(alloc: Global, out: &mut String, write: &Write) -> Result<(), AllocError> {
    match write {
        Write::Put { ns, id, doc } => {
            let ns = ns.as_str();
            write!(out, "; put {ns}")?;
            put_id(out, id)?;
            put_document(alloc, out, doc)
        }
        Write::Delete { ns, id } => {
            let ns = ns.as_str();
            write!(out, "; delete {ns}")?;
            put_id(out, id)
        }
    }
}

fn put_writes(alloc: Global, out: &mut String, writes: &[Write]) -> Result<(), AllocError> {
    for write in writes {
        put_write(alloc, out, write)?;
    }
    Ok(())
}

/// What a record says.
fn put_record(alloc: Global, out: &mut String, rec: &Rec) -> Result<(), AllocError> {
    match rec {
        Rec::Boot { boot } => write!(out, "Boot {boot}"),
        Rec::Ceiling { bound } => {
            out.push_str("Ceiling")?;
            put_time(out, *bound)
        }
        Rec::Floor { floor } => {
            out.push_str("Floor")?;
            put_time(out, *floor)
        }
        Rec::CoordEnd { tag } => {
            out.push_str("CoordEnd")?;
            put_tag(out, *tag)
        }
        Rec::CoordDecision { tag, decision } => {
            out.push_str("CoordDecision")?;
            put_tag(out, *tag)?;
            put_decision(out, decision)
        }
        _ => put_long(alloc, out, rec),
    }
}

/// What a record of a session's transaction says.
fn put_long(alloc: Global, out: &mut String, rec: &Rec) -> Result<(), AllocError> {
    match rec {
        Rec::Commit {
            tag,
            lsid,
            number,
            read_at,
            at,
            writes,
        } => {
            out.push_str("Commit")?;
            put_named(alloc, out, *tag, lsid, *number)?;
            put_times(out, *read_at, *at)?;
            put_writes(alloc, out, writes.as_slice())
        }
        Rec::Prepared {
            tag,
            lsid,
            number,
            boot,
            read_at,
            at,
            coordinator,
            writes,
        } => {
            out.push_str("Prepared")?;
            put_named(alloc, out, *tag, lsid, *number)?;
            write!(out, " boot {boot}")?;
            put_times(out, *read_at, *at)?;
            write!(out, " coordinator {coordinator}")?;
            put_writes(alloc, out, writes.as_slice())
        }
        Rec::Decided(decided) => {
            out.push_str("Decided")?;
            put_named(alloc, out, decided.tag, &decided.lsid, decided.number)?;
            put_decision(out, &decided.decision)
        }
        Rec::CoordStart {
            tag,
            lsid,
            number,
            parts,
        } => {
            out.push_str("CoordStart")?;
            put_named(alloc, out, *tag, lsid, *number)?;
            put_parts(out, parts.as_slice())
        }
        _ => Ok(()),
    }
}

pub fn record_text(alloc: Global, rec: &Rec) -> Result<String, AllocError> {
    let mut out = String::new(alloc);
    put_record(alloc, &mut out, rec)?;
    Ok(out)
}
