ghost use Rattle.std.specs.Prelude.{◌≡◌, ◌++◌, ◌∷◌, [], map, is_some, IfOk, Ok, IsTrue};
ghost use Rattle.bson_core.specs.Names.{has_no_zero};
ghost use Rattle.command_parse.specs.Commands.{batch_of, rule_of};
ghost use Rattle.std.specs.Option.{option_copied};
ghost use Rattle.bson_core.specs.declared.value.Value.TheViews.{out-Value};
ghost use Rattle.txn_types.specs.Names.{is_database, is_collection};
ghost use Rattle.crud_parse.specs.Results.{Gives};
ghost use Rattle.crud_parse.specs.Operators.{beside};
ghost use Rattle.command_parse.specs.Values.{text_where};
ghost use Rattle.command_parse.specs.Checks.{check_each, complete, or_wrong, firsts, lacking};
ghost use Rattle.command_parse.specs.Items.{InBody, InSection, batch_check};
ghost use Rattle.command_parse.specs.Operations.{in_body, in_section, value_check, field_by, field_check, given_in, needed_list, needed_database, needed_session, is_in_transaction, needed, checked};
ghost use Rattle.command_parse.specs.declared.command.Command.TheVariants as command;

use crate::batches::{batch_in_section, batch_in_value};
use crate::checks::{is_among, or_wrong, present};
use crate::command::{Command, Statement};
use crate::items::check_items;
use crate::rules::{Batch, Rule};
use crate::values::{
    check_concern, check_gossip, check_session, check_sessions, document_in, falls_in, is_zero,
    limit_in, no_upsert_in, number_in,
};
use bson_core::{Doc, Name, Value, get};
use crud_parse::{CrudErr, flag_in, read_inner};
use op_msg::Frame;
use sqlite_items::Items;
use std::alloc::{AllocError, Global};
use txn_types::{Ns, NsErr};

/// Whether the text is the name of a database: whether it makes a namespace with that of some
/// collection.
fn is_database(alloc: Global, name: &str) -> Result<bool, AllocError>
    ensures { IfOk result (λ b. b ≡ is_database name.now) }
{
    match Ns::of(alloc, name, "c") {
        Ok(_) => Ok(true),
        Err(NsErr::Database) => Ok(false),
        Err(NsErr::Collection) => Ok(true),
        Err(NsErr::Memory) => Err(AllocError),
    }
}

/// Whether the text is the name of a collection: whether it makes a namespace with that of some
/// database.
fn is_collection(alloc: Global, name: &str) -> Result<bool, AllocError>
    ensures { IfOk result (λ b. b ≡ is_collection name.now) }
{
    match Ns::of(alloc, "d", name) {
        Ok(_) => Ok(true),
        Err(NsErr::Database) => Ok(true),
        Err(NsErr::Collection) => Ok(false),
        Err(NsErr::Memory) => Err(AllocError),
    }
}

fn check_database(alloc: Global, name: &Name, value: &Value) -> Result<Option<Name>, CrudErr>
    ensures { Gives (λ m. m) result
        (complete (or_wrong name.now (text_where is_database (out-Value value.now)))) }
{
    if let Value::Text(text) = value {
        if is_database(alloc, text.as_str())? {
            return Ok(None);
        }
    }
    Err(CrudErr::WrongKind {
        name: name.copy(alloc)?,
    })
}

fn check_collection(alloc: Global, name: &Name, value: &Value) -> Result<Option<Name>, CrudErr>
    ensures { Gives (λ m. m) result
        (complete (or_wrong name.now (text_where is_collection (out-Value value.now)))) }
{
    if let Value::Text(text) = value {
        if is_collection(alloc, text.as_str())? {
            return Ok(None);
        }
    }
    Err(CrudErr::WrongKind {
        name: name.copy(alloc)?,
    })
}

fn check_batch(alloc: Global, batch: Batch, value: &Value) -> Result<Option<Name>, CrudErr>
    ensures { Gives (λ m. m) result (batch_check batch (InBody value.now)) }
{
    let docs = batch_in_value(alloc, batch, value)?;
    check_items(alloc, batch, docs.as_slice())
}

/// What is missing in the value of the field of that name, which has to be as the rule says.
fn check_value(
    alloc: Global,
    rule: Rule,
    name: &Name,
    value: &Value,
) -> Result<Option<Name>, CrudErr>
    ensures { Gives (λ m. m) result (value_check rule name.now value.now) }
{
    match rule {
        Rule::Ignored => {}
        Rule::Collection => return check_collection(alloc, name, value),
        Rule::Database => return check_database(alloc, name, value),
        Rule::Session => return check_session(alloc, name, value),
        Rule::Document => {
            if document_in(value).is_none() {
                return Err(CrudErr::WrongKind {
                    name: name.copy(alloc)?,
                });
            }
        }
        Rule::Filter => {
            let _filter = read_inner(alloc, name, value)?;
        }
        Rule::Sort => {
            let _falls = or_wrong(alloc, name, falls_in(value))?;
        }
        Rule::Limit => {
            let _limit = or_wrong(alloc, name, limit_in(value))?;
        }
        Rule::Skip => {
            if !is_zero(value) {
                return Err(CrudErr::WrongKind {
                    name: name.copy(alloc)?,
                });
            }
        }
        Rule::Batch(batch) => return check_batch(alloc, batch, value),
        Rule::Number => {
            let _number = or_wrong(alloc, name, number_in(value))?;
        }
        Rule::Flag => {
            let _flag = flag_in(alloc, name, value)?;
        }
        Rule::Clear => {
            let _clear = no_upsert_in(alloc, name, value)?;
        }
        Rule::ClusterTime => return check_gossip(alloc, name, value),
        Rule::Concern => return check_concern(alloc, name, value),
        Rule::Sessions => return check_sessions(alloc, name, value),
    }
    Ok(None)
}

/// What is missing in a field of the body.
#[tactic(auto, using(crate::proofs::Lacking::body_field))]
fn check_field(
    alloc: Global,
    command: Command,
    name: &Name,
    value: &Value,
) -> Result<Option<Name>, CrudErr>
    ensures { Gives (λ m. m) result (field_check command (in_body (name.now, value.now))) }
{
    match Rule::of(command, name.as_str()) {
        Some(rule) => check_value(alloc, rule, name, value),
        None => Err(CrudErr::UnknownField {
            name: name.copy(alloc)?,
        }),
    }
}

/// What is missing in a section, of a command that is no hello.
fn check_known_section(
    alloc: Global,
    command: Command,
    name: &Name,
    docs: &[Doc],
) -> Result<Option<Name>, CrudErr>
    ensures { Gives (λ m. m) result
        (field_by name.now (InSection docs.now) (rule_of command name.now)) }
{
    let Some(rule) = Rule::of(command, name.as_str()) else {
        return Err(CrudErr::UnknownField {
            name: name.copy(alloc)?,
        });
    };
    match rule {
        Rule::Batch(batch) => {
            let docs = batch_in_section(alloc, batch, docs)?;
            check_items(alloc, batch, docs.as_slice())
        }
        _ => Err(CrudErr::UnknownField {
            name: name.copy(alloc)?,
        }),
    }
}

/// What is missing in a section. A hello's aren't looked at.
fn check_section(
    alloc: Global,
    command: Command,
    name: &Name,
    docs: &[Doc],
) -> Result<Option<Name>, CrudErr>
    ensures { Gives (λ m. m) result (field_check command (in_section (name.now, docs.now))) }
{
    match command {
        Command::Hello { .. } => Ok(None),
        Command::Ping
        | Command::Statement(_)
        | Command::Commit
        | Command::Abort
        | Command::EndSessions => check_known_section(alloc, command, name, docs),
    }
}

/// What is missing first in the fields of a command. A command has few fields of different names,
/// since any other is refused at once; so `names` stays short.
#[tactic(auto, using(crate::proofs::Behind::behind_behind))]
fn check_fields(
    alloc: Global,
    command: Command,
    body: &[(Name, Value)],
    sections: &[(Name, Items<Doc>)],
) -> Result<Option<Name>, CrudErr>
    ensures { Gives (λ m. m) result (check_each (field_check command)
        (firsts (map in_body body.now ++ map in_section sections.now))) }
{
    let mut names = Vec::new(alloc);
    let mut missing = None;
    for (name, value) in body {
        if is_among(name, names.as_slice()) {
            continue;
        }
        missing = missing.or(check_field(alloc, command, name, value)?);
        names.push(name.copy(alloc)?)?;
    }
    for (section, docs) in sections {
        if is_among(section, names.as_slice()) {
            continue;
        }
        missing = missing.or(check_section(alloc, command, section, docs.as_slice())?);
        names.push(section.copy(alloc)?)?;
    }
    Ok(missing)
}

/// The documents of the first section of that name.
pub fn section_of<'a>(frame: &'a Frame, name: &str) -> Option<&'a [Doc]>
    ensures { option_copied result ≡ beside name.now frame.now.seqs }
{
    for (section, docs) in frame.seqs.as_slice() {
        if name == section.as_str() {
            return Some(docs.as_slice());
        }
    }
    None
}

/// Whether there is a field of that name.
fn has_field(frame: &Frame, name: &str) -> bool
    ensures { result ≡ is_some (given_in name.now frame.now) }
{
    match get(&frame.body, name) {
        Some(_) => true,
        None => section_of(frame, name).is_some(),
    }
}

/// Whether a statement is one of a transaction: its `autocommit` is false.
pub fn is_in_transaction(frame: &Frame) -> bool
    ensures { result ≡ is_in_transaction frame.now }
{
    match get(&frame.body, "autocommit") {
        Some(Value::Bool(flag)) => !*flag,
        _ => false,
    }
}

/// The name, where there is no field of it.
fn lacks(alloc: Global, frame: &Frame, name: &str) -> Result<Option<Name>, CrudErr>
    requires { IsTrue (has_no_zero name.now) }
    ensures { Gives (λ m. m) result
        (Ok (lacking (λ name. is_some (given_in name frame.now)) (name.now ∷ []))) }
{
    if has_field(frame, name) {
        return Ok(None);
    }
    Ok(Some(Name::from_str(alloc, name)?))
}

/// The list of documents that a statement has to have, where it lacks it.
fn lacking_batch(
    alloc: Global,
    statement: Statement,
    frame: &Frame,
) -> Result<Option<Name>, CrudErr>
    ensures { Gives (λ m. m) result (Ok (lacking (λ name. is_some (given_in name frame.now))
        (needed_list (batch_of statement)))) }
{
    let Some(batch) = Batch::of(statement) else {
        return Ok(None);
    };
    if has_field(frame, batch.as_str()) {
        return Ok(None);
    }
    Ok(Some(batch.name(alloc)?))
}

/// The database, where it is lacking and no older form of messages has it.
fn lacking_database(alloc: Global, frame: &Frame) -> Result<Option<Name>, CrudErr>
    ensures { Gives (λ m. m) result
        (Ok (lacking (λ name. is_some (given_in name frame.now)) (needed_database frame.now))) }
{
    if frame.legacy {
        return Ok(None);
    }
    lacks(alloc, frame, "$db")
}

/// The session or the number that is lacking, where they are wanted.
fn lacking_session(alloc: Global, wanted: bool, frame: &Frame) -> Result<Option<Name>, CrudErr>
    ensures { Gives (λ m. m) result
        (Ok (lacking (λ name. is_some (given_in name frame.now)) (needed_session wanted))) }
{
    if !wanted {
        return Ok(None);
    }
    if !has_field(frame, "lsid") {
        return Ok(Some(Name::from_str(alloc, "lsid")?));
    }
    if !has_field(frame, "txnNumber") {
        return Ok(Some(Name::from_str(alloc, "txnNumber")?));
    }
    Ok(None)
}

/// The first of the fields that a statement has to have and hasn't.
#[tactic(auto, using(crate::proofs::Lacking::lacking_behind))]
fn lacking_in_statement(
    alloc: Global,
    statement: Statement,
    frame: &Frame,
) -> Result<Option<Name>, CrudErr>
    ensures { Gives (λ m. m) result (Ok (lacking (λ name. is_some (given_in name frame.now))
        (needed (command.Statement statement) frame.now))) }
{
    let batch = lacking_batch(alloc, statement, frame)?;
    let database = lacking_database(alloc, frame)?;
    let session = lacking_session(alloc, is_in_transaction(frame), frame)?;
    Ok(batch.or(database).or(session))
}

/// The first of the fields that the end of a transaction has to have and hasn't.
#[tactic(auto, using(crate::proofs::Lacking::lacking_behind))]
fn lacking_in_end(alloc: Global, frame: &Frame) -> Result<Option<Name>, CrudErr>
    ensures { Gives (λ m. m) result (Ok (lacking (λ name. is_some (given_in name frame.now))
        (needed command.Commit frame.now))) }
{
    let database = lacking_database(alloc, frame)?;
    let session = lacking_session(alloc, true, frame)?;
    let autocommit = lacks(alloc, frame, "autocommit")?;
    Ok(database.or(session).or(autocommit))
}

/// The first of the fields that a command has to have and hasn't.
fn lacking(alloc: Global, command: Command, frame: &Frame) -> Result<Option<Name>, CrudErr>
    ensures { Gives (λ m. m) result
        (Ok (lacking (λ name. is_some (given_in name frame.now)) (needed command frame.now))) }
{
    match command {
        Command::Ping | Command::Hello { .. } | Command::EndSessions => {
            lacking_database(alloc, frame)
        }
        Command::Statement(statement) => lacking_in_statement(alloc, statement, frame),
        Command::Commit | Command::Abort => lacking_in_end(alloc, frame),
    }
}

/// Whether the message has the fields that the command has; else its first refusal. The refusals
/// are as those of
/// `read_op`, where `lsid` and `txnNumber` are missing after `$db`, and the end of a transaction
/// needs `autocommit` after them.
#[tactic(auto, unfolding(crate::specs::Operations::checked))]
pub fn check(alloc: Global, command: Command, frame: &Frame) -> Result<(), CrudErr>
    ensures { Gives (λ u. u) result (checked command frame.now) }
{
    let inside = check_fields(alloc, command, frame.body.as_slice(), frame.seqs.as_slice())?;
    let missing = inside.or(lacking(alloc, command, frame)?);
    present(missing)
}
