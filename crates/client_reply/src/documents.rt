ghost use Rattle.std.specs.Prelude.{◌≡◌, ◌<◌, ◌^◌, ◌∷◌, [], ◌++◌, true, false, pos, None, Some, IfOk, OnOk, IsTrue, map, codes, string_bytes, if◌then◌else◌};
ghost use Rattle.txn_types.specs.Limits.{most_batch, most_stored};
ghost use Rattle.op_msg.specs.Limits.{most_message};
ghost use Rattle.bson_core.specs.Names.{has_no_zero};
ghost use Rattle.bson_core.specs.declared.value.Value.TheVariants as kinds;
ghost use Rattle.bson_core.specs.declared.value.Value.TheViews as views;
ghost use Rattle.client_reply.specs.Replies.{FitsReply, FitsCount, count, cursor, success, labels, failure, hello, answer};
ghost use Rattle.client_reply.specs.declared.reply.Reply.TheVariants.{Wrote, Found};

use crate::errors::{Code, Kind, Label, kind_of_cause, kind_of_refusal};
use crate::fields::{Fields, put, put_text};
use crate::reply::Reply;
use crate::texts::{cause_text, refusal_text, too_old_text};
use bson_core::{Doc, List, Text, Value, copy_doc};
use sqlite_items::Items;
use std::alloc::{AllocError, Global};
use txn_types::{Docs, Ns};

/// A count: an int32 where it fits one.
fn count(number: u64) -> Value
    requires { number < 2 ^ 63 }
    ensures { result ≡ count number }
{
    if number <= 2_147_483_647 {
        Value::Int(number as i32)
    } else {
        Value::Long(number as i64)
    }
}

fn success(alloc: Global) -> Result<Fields, AllocError>
    ensures { IfOk result (λ f. f.items ≡ success) }
{
    let mut fields = Vec::new(alloc);
    put(alloc, &mut fields, "ok", Value::Int(1))?;
    Ok(fields)
}

/// The fields that tell how many documents a write met.
fn met(alloc: Global, n: u64) -> Result<Fields, AllocError>
    requires { n < 2 ^ 63 }
    ensures { IfOk result (λ f. f.items ≡ answer (Wrote n None None)) }
{
    let mut fields = Vec::new(alloc);
    put(alloc, &mut fields, "n", count(n))?;
    put(alloc, &mut fields, "ok", Value::Int(1))?;
    Ok(fields)
}

/// The fields that tell how many documents an update met, and how many of them it changed.
fn updated(alloc: Global, n: u64, modified: u64) -> Result<Fields, AllocError>
    requires n { n < 2 ^ 63 }
    requires modified { modified < 2 ^ 63 }
    ensures { IfOk result (λ f. f.items ≡ answer (Wrote n (Some modified) None)) }
{
    let mut fields = Vec::new(alloc);
    put(alloc, &mut fields, "n", count(n))?;
    put(alloc, &mut fields, "nModified", count(modified))?;
    put(alloc, &mut fields, "ok", Value::Int(1))?;
    Ok(fields)
}

/// Equal documents as the values of a list.
fn batch(alloc: Global, docs: &Docs) -> Result<List, AllocError>
    ensures { IfOk result (λ l. l ≡ map views.Doc docs.now) }
{
    let mut values = Vec::new(alloc);
    for doc in docs.as_slice() {
        values.push(Value::Doc(copy_doc(alloc, doc)?))?;
    }
    Ok(Items::from_vec(values))
}

/// The cursor of a find whose documents all stand in its first batch.
fn cursor(alloc: Global, ns: &Ns, docs: &Docs) -> Result<Doc, AllocError>
    ensures { IfOk result (λ d. d ≡ cursor ns.now docs.now) }
{
    let mut fields = Vec::new(alloc);
    let batch = Value::List(batch(alloc, docs)?);
    put(alloc, &mut fields, "firstBatch", batch)?;
    put(alloc, &mut fields, "id", Value::Long(0))?;
    let ns = String::from_str(alloc, ns.as_str())?;
    put_text(alloc, &mut fields, "ns", ns)?;
    Ok(Items::from_vec(fields))
}

fn found(alloc: Global, ns: &Ns, docs: &Docs) -> Result<Fields, AllocError>
    ensures { IfOk result (λ f. f.items ≡ answer (Found ns.now docs.now None)) }
{
    let mut fields = Vec::new(alloc);
    let cursor = Value::Doc(cursor(alloc, ns, docs)?);
    put(alloc, &mut fields, "cursor", cursor)?;
    put(alloc, &mut fields, "ok", Value::Int(1))?;
    Ok(fields)
}

/// Appends the error's label, where there is one.
fn put_label(alloc: Global, fields: &mut Fields, label: Option<Label>) -> Result<(), AllocError>
    ensures { OnOk result (fields.new.items ≡ fields.old.items ++ labels label) }
{
    let Some(label) = label else {
        return Ok(());
    };
    let name = String::from_str(alloc, label.name())?;
    let mut names = Vec::new(alloc);
    names.push(Value::Text(Text::new(name)))?;
    put(
        alloc,
        fields,
        "errorLabels",
        Value::List(Items::from_vec(names)),
    )
}

fn failure(alloc: Global, kind: Kind, message: String) -> Result<Fields, AllocError>
    ensures { IfOk result (λ f. f.items ≡ failure kind (string_bytes message)) }
{
    let (code, label) = kind;
    let mut fields = Vec::new(alloc);
    put(alloc, &mut fields, "ok", Value::Int(0))?;
    put_text(alloc, &mut fields, "errmsg", message)?;
    put(alloc, &mut fields, "code", Value::Int(code.number()))?;
    let name = String::from_str(alloc, code.name())?;
    put_text(alloc, &mut fields, "codeName", name)?;
    put_label(alloc, &mut fields, label)?;
    Ok(fields)
}

/// Appends a number.
fn put_int(alloc: Global, fields: &mut Fields, name: &str, number: i32) -> Result<(), AllocError>
    requires { IsTrue (has_no_zero name.now) }
    ensures { OnOk result
        (fields.new.items ≡ fields.old.items ++ (name.now, kinds.Int number) ∷ []) }
{
    put(alloc, fields, name, Value::Int(number))
}

/// That the server takes writes, by the newer name or the older one.
fn put_primary(alloc: Global, fields: &mut Fields, old_name: bool) -> Result<(), AllocError>
    ensures { OnOk result (fields.new.items ≡ fields.old.items
        ++ (if old_name then codes "ismaster" else codes "isWritablePrimary", kinds.Bool true)
        ∷ []) }
{
    if old_name {
        put(alloc, fields, "ismaster", Value::Bool(true))
    } else {
        put(alloc, fields, "isWritablePrimary", Value::Bool(true))
    }
}

/// That the server is a router.
fn put_kind_of_server(alloc: Global, fields: &mut Fields, old_name: bool) -> Result<(), AllocError>
    ensures { OnOk result (fields.new.items ≡ fields.old.items
        ++ (if old_name then codes "ismaster" else codes "isWritablePrimary", kinds.Bool true)
        ∷ (codes "msg", kinds.Text (codes "isdbgrid")) ∷ []) }
{
    put_primary(alloc, fields, old_name)?;
    let kind = String::from_str(alloc, "isdbgrid")?;
    put_text(alloc, fields, "msg", kind)?;
    Ok(())
}

/// The manual's limits, which drivers read.
fn put_limits(alloc: Global, fields: &mut Fields) -> Result<(), AllocError>
    ensures { OnOk result (fields.new.items
        ≡ fields.old.items ++ (codes "maxBsonObjectSize", kinds.Int (pos most_stored))
        ∷ (codes "maxMessageSizeBytes", kinds.Int (pos most_message))
        ∷ (codes "maxWriteBatchSize", kinds.Int (pos most_batch)) ∷ []) }
{
    put_int(alloc, fields, "maxBsonObjectSize", 16_777_216)?;
    put_int(alloc, fields, "maxMessageSizeBytes", 48_000_000)?;
    put_int(alloc, fields, "maxWriteBatchSize", 100_000)?;
    Ok(())
}

/// The versions of the wire protocol that are served, and that writes are.
fn put_versions(alloc: Global, fields: &mut Fields) -> Result<(), AllocError>
    ensures { OnOk result
        (fields.new.items ≡ fields.old.items ++ (codes "minWireVersion", kinds.Int (pos 0))
        ∷ (codes "maxWireVersion", kinds.Int (pos 21)) ∷ (codes "readOnly", kinds.Bool false)
        ∷ success) }
{
    put_int(alloc, fields, "minWireVersion", 0)?;
    put_int(alloc, fields, "maxWireVersion", 21)?;
    put(alloc, fields, "readOnly", Value::Bool(false))?;
    put_int(alloc, fields, "ok", 1)?;
    Ok(())
}

/// What the server is, at this wall, to this connection.
fn hello(alloc: Global, old_name: bool, wall: u32, conn: u32) -> Result<Fields, AllocError>
    ensures { IfOk result (λ f. f.items ≡ hello old_name wall conn) }
{
    let mut fields = Vec::new(alloc);
    put_kind_of_server(alloc, &mut fields, old_name)?;
    put_limits(alloc, &mut fields)?;
    let millis = (u64::from(wall) * 1000) as i64;
    put(alloc, &mut fields, "localTime", Value::Date(millis))?;
    put_int(alloc, &mut fields, "logicalSessionTimeoutMinutes", 30)?;
    put(alloc, &mut fields, "connectionId", count(u64::from(conn)))?;
    put_versions(alloc, &mut fields)?;
    Ok(fields)
}

/// The fields of a write's reply.
fn wrote(alloc: Global, n: u64, modified: Option<u64>) -> Result<Fields, AllocError>
    requires n { n < 2 ^ 63 }
    requires modified { FitsCount modified }
    ensures { IfOk result (λ f. f.items ≡ answer (Wrote n modified None)) }
{
    match modified {
        Some(modified) => updated(alloc, n, modified),
        None => met(alloc, n),
    }
}

/// The fields of the reply, in front of the token and the times.
pub fn answer(alloc: Global, reply: &Reply) -> Result<Fields, AllocError>
    requires { FitsReply reply.now }
    ensures { IfOk result (λ f. f.items ≡ answer reply.now) }
{
    match reply {
        Reply::Ping | Reply::Ended { .. } => success(alloc),
        Reply::Hello {
            old_name,
            wall,
            conn,
        } => hello(alloc, *old_name, *wall, *conn),
        Reply::Wrote { n, modified, .. } => wrote(alloc, *n, *modified),
        Reply::Found { ns, docs, .. } => found(alloc, ns, docs),
        Reply::Caused {
            shard,
            number,
            cause,
        } => {
            let text = cause_text(alloc, *shard, *number, cause)?;
            failure(alloc, kind_of_cause(*number, cause), text)
        }
        Reply::TooOld { number, have } => {
            let text = too_old_text(alloc, *number, *have)?;
            failure(alloc, (Code::TransactionTooOld, None), text)
        }
        Reply::Refused(refusal) => {
            let text = refusal_text(alloc, refusal)?;
            failure(alloc, kind_of_refusal(refusal), text)
        }
    }
}
