ghost use Rattle.std.specs.Prelude.{◌≡◌, true, IfOk, Ok, None, Some, codes};
ghost use Rattle.bson_core.specs.declared.value.Value.{Value as AnyValue};
ghost use Rattle.bson_core.specs.declared.value.Value.TheViews.{out-Value};
ghost use Rattle.bson_core.specs.Fields.{value_of};
ghost use Rattle.std.specs.List.{filter_map};
ghost use Rattle.std.specs.Option.{option_copied};
ghost use Rattle.client_cmd.specs.Lists.{list_of};
ghost use Rattle.command_parse.specs.Checks.{check_each};
ghost use Rattle.command_parse.specs.Values.{is_uuid, session_in, sessions_in};
ghost use Rattle.client_cmd.specs.Commands.{session_bytes, session_by, starts_in, txn_in, statement_txn, token_under, sessions_by, sessions_under};

use crate::request::{Lsids, Txn};
use crate::tokens::token_in;
use bson_core::{Doc, Value, get};
use command_parse::{is_in_transaction, number_in};
use op_msg::Frame;
use sqlite_items::Items;
use std::alloc::{AllocError, Global};
use txn_types::{Lsid, Token};

/// The bytes of a UUID.
fn uuid(value: &Value) -> [u8; 16]
    requires { is_uuid (out-Value value.now) ≡ true }
    ensures { result ≡ session_bytes (out-Value value.now) }
{
    match value {
        Value::Bin(bin) => {
            let mut id = [0; 16];
            id.copy_from_slice(bin.bytes.as_slice());
            id
        }
        _ => unreachable!(),
    }
}

/// The session that a value is which was checked.
fn session_of(value: &Value) -> Lsid
    requires { session_in (codes "lsid") (out-Value value.now) ≡ Ok None }
    ensures { result ≡ session_by (out-Value value.now) }
{
    match value {
        Value::Doc(session) => match get(session, "id") {
            Some(id) => Lsid::Client(uuid(id)),
            None => unreachable!(),
        },
        _ => unreachable!(),
    }
}

/// Whether the command starts a transaction.
fn starts_in(body: &Doc) -> bool
    ensures { result ≡ starts_in body.now }
{
    match get(body, "startTransaction") {
        Some(Value::Bool(flag)) => *flag,
        _ => false,
    }
}

/// The transaction that a command is of whose session was checked.
pub fn txn_in(body: &Doc) -> Option<Txn>
    requires { (v : AnyValue) → value_of (codes "lsid") body.now ≡ Some v
        → session_in (codes "lsid") (out-Value v) ≡ Ok None }
    ensures { result ≡ txn_in body.now }
{
    let lsid = get(body, "lsid")?;
    let number = number_in(get(body, "txnNumber")?)?;
    Some(Txn {
        lsid: session_of(lsid),
        number,
        start: starts_in(body),
    })
}

/// The transaction that a statement is of, whose session was checked.
pub fn statement_txn(frame: &Frame) -> Option<Txn>
    requires { (v : AnyValue) → value_of (codes "lsid") frame.now.body ≡ Some v
        → session_in (codes "lsid") (out-Value v) ≡ Ok None }
    ensures { result ≡ statement_txn frame.now }
{
    if is_in_transaction(frame) {
        txn_in(&frame.body)
    } else {
        None
    }
}

/// The recovery token of a commit.
pub fn token_under(body: &Doc) -> Option<Token>
    ensures { result ≡ token_under body.now }
{
    match get(body, "recoveryToken") {
        Some(value) => Some(token_in(value)),
        None => None,
    }
}

/// The sessions that the values are, which were checked.
fn sessions_of(alloc: Global, values: &[Value]) -> Result<Lsids, AllocError>
    requires { check_each (λ value. session_in (codes "lsid") (out-Value value)) values.now
        ≡ Ok None }
    ensures { IfOk result
        (λ ids. ids ≡ filter_map (λ value. Some (session_by (out-Value value))) values.now) }
{
    let mut ids = Vec::new(alloc);
    for value in values {
        ids.push(session_of(value))?;
    }
    Ok(Items::from_vec(ids))
}

fn list_in(value: &Value) -> Option<&[Value]>
    ensures { option_copied result ≡ list_of (out-Value value.now) }
{
    match value {
        Value::List(list) => Some(list.as_slice()),
        _ => None,
    }
}

/// The sessions that a list is, which was checked.
#[tactic(auto, using(crate::proofs::Sessions::listed_by, crate::proofs::Sessions::is_listed))]
fn sessions_in(alloc: Global, value: &Value) -> Result<Lsids, AllocError>
    requires { sessions_in (codes "endSessions") (out-Value value.now) ≡ Ok None }
    ensures { IfOk result (λ ids. ids ≡ sessions_by (out-Value value.now)) }
{
    match list_in(value) {
        Some(values) => sessions_of(alloc, values),
        None => unreachable!(),
    }
}

/// The sessions that a command ends, which were checked.
pub fn sessions_under(alloc: Global, body: &Doc) -> Result<Lsids, AllocError>
    requires { (v : AnyValue) → value_of (codes "endSessions") body.now ≡ Some v
        → sessions_in (codes "endSessions") (out-Value v) ≡ Ok None }
    ensures { IfOk result (λ ids. ids ≡ sessions_under body.now) }
{
    match get(body, "endSessions") {
        Some(value) => sessions_in(alloc, value),
        None => Ok(Items::new(alloc)),
    }
}
