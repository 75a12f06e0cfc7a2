//! What a message is read as, in words: the request, or the refusal with its name.
use bson_core::{Name, Value};
use bson_text::{print, print_value};
use client_cmd::{CmdErr, Request, Txn, read_command};
use crud_parse::CrudErr;
use op_msg::{Frame, read_frame};
use std::alloc::{AllocError, Global};
use txn_types::{
    Cmp, DeleteItem, Filter, InsertItem, Lsid, Op, Tag, Token, Ts, Update, UpdateItem, UpdateKind,
    UpdateOp,
};

/// The text of a value.
fn text_of(alloc: Global, value: &Value) -> Result<String, AllocError> {
    match print_value(alloc, value) {
        Ok(text) => Ok(text),
        Err(_) => Err(AllocError),
    }
}

/// Appends an item of a filter, where it says that a field is equal to a value.
fn put_equality(alloc: Global, out: &mut String, filter: &Filter) -> Result<(), AllocError> {
    let Filter::Test {
        name,
        cmp: Cmp::Eq,
        value,
    } = filter
    else {
        return out.push_str(" (another test)");
    };
    let value = text_of(alloc, value)?;
    write!(out, " {}={}", name.as_str(), value.as_str())
}

/// Appends a filter whose items are equalities.
fn put_filter(alloc: Global, out: &mut String, filter: &Filter) -> Result<(), AllocError> {
    let Filter::And(filters) = filter else {
        return out.push_str(" (another filter)");
    };
    if !filters.is_empty() {
        out.push_str(" where")?;
    }
    for filter in filters.as_slice() {
        put_equality(alloc, out, filter)?;
    }
    Ok(())
}

fn put_op(alloc: Global, out: &mut String, op: &UpdateOp) -> Result<(), AllocError> {
    let word = match op.kind {
        UpdateKind::Set => "set",
        UpdateKind::Unset => "unset",
        UpdateKind::Inc => "inc",
    };
    let value = text_of(alloc, &op.value)?;
    write!(out, " {word} {}={}", op.name.as_str(), value.as_str())
}

fn put_update(alloc: Global, out: &mut String, update: &Update) -> Result<(), AllocError> {
    match update {
        Update::Replace(doc) => {
            let Ok(doc) = print(alloc, doc) else {
                return Err(AllocError);
            };
            write!(out, " replace {}", doc.as_str())
        }
        Update::Ops(ops) => {
            for op in ops.as_slice() {
                put_op(alloc, out, op)?;
            }
            Ok(())
        }
    }
}

/// How many documents an item is for.
fn reach(many: bool) -> &'static str {
    if many { "many" } else { "one" }
}

fn put_documents(alloc: Global, out: &mut String, items: &[InsertItem]) -> Result<(), AllocError> {
    for item in items {
        let Ok(doc) = print(alloc, &item.doc) else {
            return Err(AllocError);
        };
        write!(out, ", {} {}", item.index, doc.as_str())?;
    }
    Ok(())
}

fn put_updates(alloc: Global, out: &mut String, items: &[UpdateItem]) -> Result<(), AllocError> {
    for item in items {
        write!(out, ", {} {}", item.index, reach(item.many))?;
        put_filter(alloc, out, &item.filter)?;
        put_update(alloc, out, &item.update)?;
    }
    Ok(())
}

fn put_deletes(alloc: Global, out: &mut String, items: &[DeleteItem]) -> Result<(), AllocError> {
    for item in items {
        write!(out, ", {} {}", item.index, reach(item.many))?;
        put_filter(alloc, out, &item.filter)?;
    }
    Ok(())
}

/// Appends an operation.
fn put_operation(alloc: Global, out: &mut String, op: &Op) -> Result<(), AllocError> {
    match op {
        Op::Insert { ns, docs } => {
            write!(out, "insert into {}", ns.as_str())?;
            put_documents(alloc, out, docs.as_slice())
        }
        Op::Find {
            ns,
            filter,
            down,
            limit,
        } => {
            write!(out, "find in {}", ns.as_str())?;
            put_filter(alloc, out, filter)?;
            let order = if *down { " falling" } else { "" };
            write!(out, "{order} limit {limit}")
        }
        Op::Update { ns, items } => {
            write!(out, "update in {}", ns.as_str())?;
            put_updates(alloc, out, items.as_slice())
        }
        Op::Delete { ns, items } => {
            write!(out, "delete in {}", ns.as_str())?;
            put_deletes(alloc, out, items.as_slice())
        }
    }
}

fn with_name(out: &mut String, word: &str, name: &Name) -> Result<(), AllocError> {
    write!(out, "{word} {}", name.as_str())
}

/// Appends the refusal of a command's fields.
fn put_refusal(out: &mut String, error: &CrudErr) -> Result<(), AllocError> {
    match error {
        CrudErr::UnknownOperator { name } => with_name(out, "UnknownOperator", name),
        CrudErr::DottedName { name } => with_name(out, "DottedName", name),
        CrudErr::WrongKind { name } => with_name(out, "WrongKind", name),
        CrudErr::Missing { name } => with_name(out, "Missing", name),
        CrudErr::UnknownField { name } => with_name(out, "UnknownField", name),
        CrudErr::Memory => Err(AllocError),
    }
}

/// Appends a time as its seconds and its increment, where there is one.
fn put_time(out: &mut String, word: &str, time: Option<Ts>) -> Result<(), AllocError> {
    match time {
        Some(time) => write!(out, ", {word} {}.{}", time.0 >> 32, time.0 % (1 << 32)),
        None => Ok(()),
    }
}

/// Appends a session, by the hexadecimal digits of its id.
fn put_session(alloc: Global, out: &mut String, lsid: &Lsid) -> Result<(), AllocError> {
    match lsid {
        Lsid::Client(id) => {
            let digits = hex::encode(alloc, id)?;
            write!(out, " {}", digits.as_str())
        }
        Lsid::Own { .. } => out.push_str(" its own"),
    }
}

/// Appends the transaction that a command is of.
fn put_txn(alloc: Global, out: &mut String, txn: &Option<Txn>) -> Result<(), AllocError> {
    let Some(txn) = txn else {
        return Ok(());
    };
    out.push_str(", of")?;
    put_session(alloc, out, &txn.lsid)?;
    write!(out, " {}", txn.number)?;
    if txn.start {
        out.push_str(" from its start")?;
    }
    Ok(())
}

fn put_tag(out: &mut String, tag: &Tag) -> Result<(), AllocError> {
    write!(out, " {}.{}.{}", tag.router, tag.boot, tag.serial)
}

/// Appends a recovery token.
fn put_token(out: &mut String, token: &Option<Token>) -> Result<(), AllocError> {
    match token {
        Some(Token::Early { tag }) => {
            out.push_str(", early")?;
            put_tag(out, tag)
        }
        Some(Token::Placed { tag, shard, boot }) => {
            out.push_str(", placed")?;
            put_tag(out, tag)?;
            write!(out, " shard {shard} boot {boot}")
        }
        Some(Token::Other) => out.push_str(", other token"),
        None => Ok(()),
    }
}

/// Appends the time that the client has seen, and that it wants no reply.
fn put_end(out: &mut String, more: bool, time: Option<Ts>) -> Result<(), AllocError> {
    put_time(out, "seen", time)?;
    if more {
        out.push_str(", more to come")?;
    }
    Ok(())
}

/// Appends a request that is no end of a transaction.
fn put_request(alloc: Global, out: &mut String, request: &Request) -> Result<(), AllocError> {
    match request {
        Request::Ping { more, time } => {
            out.push_str("ping")?;
            put_end(out, *more, *time)
        }
        Request::Hello {
            old_name,
            more,
            time,
        } => {
            out.push_str(if *old_name {
                "hello by an older name"
            } else {
                "hello"
            })?;
            put_end(out, *more, *time)
        }
        Request::Statement {
            op,
            txn,
            at,
            after,
            more,
            time,
        } => {
            put_operation(alloc, out, op)?;
            put_txn(alloc, out, txn)?;
            put_time(out, "at", *at)?;
            put_time(out, "after", *after)?;
            put_end(out, *more, *time)
        }
        Request::Commit { .. } | Request::Abort { .. } | Request::EndSessions { .. } => {
            put_end_of(alloc, out, request)
        }
    }
}

/// Appends an end of a transaction or of sessions.
fn put_end_of(alloc: Global, out: &mut String, request: &Request) -> Result<(), AllocError> {
    match request {
        Request::Commit {
            txn,
            token,
            more,
            time,
        } => {
            out.push_str("commit")?;
            put_txn(alloc, out, txn)?;
            put_token(out, token)?;
            put_end(out, *more, *time)
        }
        Request::Abort { txn, more, time } => {
            out.push_str("abort")?;
            put_txn(alloc, out, txn)?;
            put_end(out, *more, *time)
        }
        Request::EndSessions { ids, more, time } => {
            out.push_str("end")?;
            for lsid in ids.as_slice() {
                put_session(alloc, out, lsid)?;
            }
            put_end(out, *more, *time)
        }
        Request::Ping { .. } | Request::Hello { .. } | Request::Statement { .. } => Ok(()),
    }
}

/// What the message asks at that wall.
fn request_of(alloc: Global, wall: u32, frame: &Frame) -> Result<String, AllocError> {
    let mut out = String::new(alloc);
    match read_command(alloc, frame, wall) {
        Ok(request) => put_request(alloc, &mut out, &request)?,
        Err(CmdErr::Unknown { name }) => with_name(&mut out, "Unknown", &name)?,
        Err(CmdErr::Unacknowledged) => out.push_str("Unacknowledged")?,
        Err(CmdErr::RetryWrite) => out.push_str("RetryWrite")?,
        Err(CmdErr::ClusterTimeAhead { secs, wall }) => {
            write!(out, "ClusterTimeAhead {secs} {wall}")?;
        }
        Err(CmdErr::Parse(error)) => put_refusal(&mut out, &error)?,
        Err(CmdErr::Memory) => return Err(AllocError),
    }
    Ok(out)
}

/// What the message asks at that wall, in words; or the number of its fault.
pub fn told(alloc: Global, wall: u32, message: &[u8]) -> Result<String, AllocError> {
    match read_frame(alloc, message) {
        Ok(frame) => request_of(alloc, wall, &frame),
        Err(fault) => format!(in alloc; "fault {}", fault.number()),
    }
}
