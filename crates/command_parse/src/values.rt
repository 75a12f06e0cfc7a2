ghost use Rattle.std.specs.Prelude.{◌≡◌, ◌==◌, ◌&&◌, length};
ghost use Rattle.std.specs.Option.{option_copied, option_and_then};
ghost use Rattle.bson_core.specs.declared.value.Value.TheViews.{out-Value};
ghost use Rattle.bson_core.specs.Fields.{value_of};
ghost use Rattle.txn_types.specs.Names.{is_database, is_collection};
ghost use Rattle.crud_parse.specs.Results.{Gives};
ghost use Rattle.command_parse.specs.Values.{number_in, document_in, falls_by, falls_in, natural, limit_in, is_zero, all_by, all_in, no_upsert_in, is_uuid, session_id, session_in, time_in, gossip_in, is_text, above_zero, concern_field, concern_in, sessions_in};
ghost use Rattle.command_parse.specs.Checks.{check_each, firsts};

use crate::checks::{is_among, or_wrong};
use bson_core::{Doc, Name, Value, get};
use crud_parse::{CrudErr, flag_in};
use std::alloc::Global;
use txn_types::Ts;

/// No command ends more sessions.
const MOST_SESSIONS: usize = 100_000;

/// The number that the value is.
pub fn number_in(value: &Value) -> Option<i64>
    ensures { result ≡ number_in (out-Value value.now) }
{
    match value {
        Value::Int(number) => Some(i64::from(*number)),
        Value::Long(number) => Some(*number),
        _ => None,
    }
}

/// The document that the value is.
pub fn document_in(value: &Value) -> Option<&Doc>
    ensures { option_copied result ≡ document_in (out-Value value.now) }
{
    match value {
        Value::Doc(doc) => Some(doc),
        _ => None,
    }
}

fn falls_by(number: i64) -> Option<bool>
    ensures { result ≡ falls_by number }
{
    if number == 1 {
        return Some(false);
    }
    if number == -1 {
        return Some(true);
    }
    None
}

/// Whether the order of a find falls.
pub fn falls_in(value: &Value) -> Option<bool>
    ensures { result ≡ falls_in (out-Value value.now) }
{
    let Value::Doc(doc) = value else {
        return None;
    };
    match doc.as_slice() {
        [] => Some(false),
        [(name, order)] => {
            if name.as_str() != "_id" {
                return None;
            }
            falls_by(number_in(order)?)
        }
        _ => None,
    }
}

fn natural(number: i64) -> Option<u64>
    ensures { result ≡ natural number }
{
    u64::try_from(number).ok()
}

/// The limit of a find.
pub fn limit_in(value: &Value) -> Option<u64>
    ensures { result ≡ limit_in (out-Value value.now) }
{
    natural(number_in(value)?)
}

/// Whether the value is the number 0.
pub fn is_zero(value: &Value) -> bool
    ensures { result ≡ is_zero (out-Value value.now) }
{
    match number_in(value) {
        Some(number) => number == 0,
        None => false,
    }
}

fn all_by(number: i64) -> Option<bool>
    ensures { result ≡ all_by number }
{
    if number == 0 {
        return Some(true);
    }
    if number == 1 {
        return Some(false);
    }
    None
}

/// Whether the limit of a delete is none, so that all documents that match are deleted.
pub fn all_in(value: &Value) -> Option<bool>
    ensures { result ≡ all_in (out-Value value.now) }
{
    all_by(number_in(value)?)
}

/// The truth value false, as the value under that name.
pub fn no_upsert_in(alloc: Global, name: &Name, value: &Value) -> Result<bool, CrudErr>
    ensures { Gives (λ b. b) result (no_upsert_in name.now (out-Value value.now)) }
{
    let upsert = flag_in(alloc, name, value)?;
    if upsert {
        return Err(CrudErr::WrongKind {
            name: name.copy(alloc)?,
        });
    }
    Ok(upsert)
}

fn is_uuid(value: &Value) -> bool
    ensures { result ≡ is_uuid (out-Value value.now) }
{
    match value {
        Value::Bin(bin) => bin.subtype == 4 && bin.bytes.as_slice().len() == 16,
        _ => false,
    }
}

/// What is missing of a session's id.
fn check_session_id(alloc: Global, id: Option<&Value>) -> Result<Option<Name>, CrudErr>
    ensures { Gives (λ m. m) result (session_id (option_copied id.entry)) }
{
    match id {
        Some(value) => {
            if !is_uuid(value) {
                return Err(CrudErr::WrongKind {
                    name: Name::from_str(alloc, "id")?,
                });
            }
            Ok(None)
        }
        None => Ok(Some(Name::from_str(alloc, "id")?)),
    }
}

/// The cluster time that the value is.
pub fn time_in(value: &Value) -> Option<Ts>
    ensures { result ≡ time_in (out-Value value.now) }
{
    match value {
        Value::Stamp(time) => Some(Ts(*time)),
        _ => None,
    }
}

/// What is missing of the session that is the value under that name.
pub fn check_session(alloc: Global, name: &Name, value: &Value) -> Result<Option<Name>, CrudErr>
    ensures { Gives (λ m. m) result (session_in name.now (out-Value value.now)) }
{
    match value {
        Value::Doc(session) => check_session_id(alloc, get(session, "id")),
        _ => Err(CrudErr::WrongKind {
            name: name.copy(alloc)?,
        }),
    }
}

/// What is missing of the cluster time that the value under that name carries.
pub fn check_gossip(alloc: Global, name: &Name, value: &Value) -> Result<Option<Name>, CrudErr>
    ensures { Gives (λ m. m) result (gossip_in name.now (out-Value value.now)) }
{
    let Value::Doc(gossip) = value else {
        return Err(CrudErr::WrongKind {
            name: name.copy(alloc)?,
        });
    };
    let Some(time) = get(gossip, "clusterTime") else {
        return Ok(Some(Name::from_str(alloc, "clusterTime")?));
    };
    if time_in(time).is_none() {
        return Err(CrudErr::WrongKind {
            name: Name::from_str(alloc, "clusterTime")?,
        });
    }
    Ok(None)
}

fn is_text(value: &Value) -> Option<bool>
    ensures { result ≡ is_text (out-Value value.now) }
{
    match value {
        Value::Text(_) => Some(true),
        _ => None,
    }
}

/// The time to read at that the value is, which is above 0.
fn time_above_zero(value: &Value) -> Option<Ts>
    ensures { result ≡ option_and_then above_zero (time_in (out-Value value.now)) }
{
    let time = time_in(value)?;
    if time.0 == 0 { None } else { Some(time) }
}

/// Refuses a field of a read concern that isn't as it has to be.
fn check_concern_field(alloc: Global, name: &Name, value: &Value) -> Result<Option<Name>, CrudErr>
    ensures { Gives (λ m. m) result (concern_field (name.now, value.now)) }
{
    if name.as_str() == "level" {
        let _level = or_wrong(alloc, name, is_text(value))?;
        return Ok(None);
    }
    if name.as_str() == "afterClusterTime" {
        let _after = or_wrong(alloc, name, time_in(value))?;
        return Ok(None);
    }
    if name.as_str() == "atClusterTime" {
        let _at = or_wrong(alloc, name, time_above_zero(value))?;
        return Ok(None);
    }
    Err(CrudErr::UnknownField {
        name: name.copy(alloc)?,
    })
}

/// Refuses a field of a read concern that isn't as it has to be. It has three of different names at
/// most, since any other is refused at once.
#[tactic(auto, using(crate::proofs::Behind::behind_behind))]
fn check_concern_fields(alloc: Global, fields: &[(Name, Value)]) -> Result<Option<Name>, CrudErr>
    ensures { Gives (λ m. m) result (check_each concern_field (firsts fields.now)) }
{
    let mut names = Vec::new(alloc);
    let mut missing = None;
    for (name, value) in fields {
        if is_among(name, names.as_slice()) {
            continue;
        }
        missing = missing.or(check_concern_field(alloc, name, value)?);
        names.push(name.copy(alloc)?)?;
    }
    Ok(missing)
}

/// What is missing of the read concern that is the value under that name.
pub fn check_concern(alloc: Global, name: &Name, value: &Value) -> Result<Option<Name>, CrudErr>
    ensures { Gives (λ m. m) result (concern_in name.now (out-Value value.now)) }
{
    match value {
        Value::Doc(concern) => check_concern_fields(alloc, concern.as_slice()),
        _ => Err(CrudErr::WrongKind {
            name: name.copy(alloc)?,
        }),
    }
}

/// What is missing first in the sessions that stand under that name.
#[tactic(auto, using(crate::proofs::Behind::behind_behind))]
fn check_each_session(alloc: Global, name: &Name, values: &[Value]) -> Result<Option<Name>, CrudErr>
    ensures { Gives (λ m. m) result
        (check_each (λ value. session_in name.now (out-Value value)) values.now) }
{
    let mut missing = None;
    for value in values {
        missing = missing.or(check_session(alloc, name, value)?);
    }
    Ok(missing)
}

/// What is missing of the sessions that are the value under that name, 1 to 100,000 of them.
pub fn check_sessions(alloc: Global, name: &Name, value: &Value) -> Result<Option<Name>, CrudErr>
    ensures { Gives (λ m. m) result (sessions_in name.now (out-Value value.now)) }
{
    let Value::List(list) = value else {
        return Err(CrudErr::WrongKind {
            name: name.copy(alloc)?,
        });
    };
    let values = list.as_slice();
    if values.is_empty() || values.len() > MOST_SESSIONS {
        return Err(CrudErr::WrongKind {
            name: name.copy(alloc)?,
        });
    }
    check_each_session(alloc, name, values)
}
