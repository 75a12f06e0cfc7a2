ghost use Rattle.std.specs.Prelude.{◌≡◌, IfOk, codes};
ghost use Rattle.bson_core.specs.Fields.{value_of};
ghost use Rattle.command_parse.specs.Commands.{command_named};
ghost use Rattle.command_parse.specs.declared.command.Command.TheVariants as command;
ghost use Rattle.client_cmd.specs.Errors.{Gives};
ghost use Rattle.client_cmd.specs.Commands.{first_name, is_served, command_in, asks_for_none, wants_no_answer, is_unacknowledged, is_write, is_retried, request_by, request_of};

use crate::error::CmdErr;
use crate::fields::{sessions_under, statement_txn, token_under, txn_in};
use crate::request::Request;
use crate::times::{after_time, at_time, check_times, seen_time};
use bson_core::{Doc, Name, Value, get};
use command_parse::{Command, Statement, check, is_in_transaction, is_zero, read_op};
use op_msg::Frame;
use std::alloc::{AllocError, Global};

/// The name of the command.
fn first_name(alloc: Global, body: &Doc) -> Result<Name, AllocError>
    ensures { IfOk result (λ n. n ≡ first_name body.now) }
{
    match body.as_slice() {
        [] => Name::from_str(alloc, ""),
        [(name, _), ..] => name.copy(alloc),
    }
}

/// The command of the first name, if it is one.
fn command_named(body: &Doc) -> Option<Command>
    ensures { result ≡ command_named (first_name body.now) }
{
    match body.as_slice() {
        [] => None,
        [(name, _), ..] => Command::of(name.as_str()),
    }
}

/// Whether the command is served in that form of messages: in the older one only a hello is.
fn is_served(legacy: bool, command: Command) -> bool
    ensures { result ≡ is_served legacy command }
{
    match command {
        Command::Hello { .. } => true,
        Command::Ping
        | Command::Statement(_)
        | Command::Commit
        | Command::Abort
        | Command::EndSessions => !legacy,
    }
}

/// The command, where it is served.
fn command_in(alloc: Global, frame: &Frame) -> Result<Command, CmdErr>
    ensures { Gives (λ c. c) result (command_in frame.now) }
{
    let Some(command) = command_named(&frame.body) else {
        return Err(CmdErr::Unknown {
            name: first_name(alloc, &frame.body)?,
        });
    };
    if !is_served(frame.legacy, command) {
        return Err(CmdErr::Unknown {
            name: first_name(alloc, &frame.body)?,
        });
    }
    Ok(command)
}

/// Whether a write concern asks for no acknowledgement.
fn asks_for_none(concern: &Doc) -> bool
    ensures { result ≡ asks_for_none (value_of (codes "w") concern.now) }
{
    match get(concern, "w") {
        Some(value) => is_zero(value),
        None => false,
    }
}

/// Whether the write concern of the body asks for no acknowledgement.
fn wants_no_answer(body: &Doc) -> bool
    ensures { result ≡ wants_no_answer (value_of (codes "writeConcern") body.now) }
{
    match get(body, "writeConcern") {
        Some(Value::Doc(concern)) => asks_for_none(concern),
        Some(_) => false,
        None => false,
    }
}

/// Whether the sender wants no answer.
fn is_unacknowledged(frame: &Frame) -> bool
    ensures { result ≡ is_unacknowledged frame.now }
{
    frame.more || wants_no_answer(&frame.body)
}

fn is_write(command: Command) -> bool
    ensures { result ≡ is_write command }
{
    match command {
        Command::Statement(Statement::Insert | Statement::Update | Statement::Delete) => true,
        Command::Statement(Statement::Find)
        | Command::Ping
        | Command::Hello { .. }
        | Command::Commit
        | Command::Abort
        | Command::EndSessions => false,
    }
}

/// Whether a write is to be retried by its number: it has one, and is of no transaction.
fn is_retried(command: Command, frame: &Frame) -> bool
    ensures { result ≡ is_retried command frame.now }
{
    is_write(command) && get(&frame.body, "txnNumber").is_some() && !is_in_transaction(frame)
}

fn read_ping(alloc: Global, frame: &Frame) -> Result<Request, CmdErr>
    ensures { Gives (λ r. r) result (request_by command.Ping frame.now) }
{
    check(alloc, Command::Ping, frame)?;
    Ok(Request::Ping {
        more: frame.more,
        time: seen_time(&frame.body),
    })
}

fn read_hello(alloc: Global, old_name: bool, frame: &Frame) -> Result<Request, CmdErr>
    ensures { Gives (λ r. r) result (request_by (command.Hello old_name) frame.now) }
{
    check(alloc, Command::Hello { old_name }, frame)?;
    Ok(Request::Hello {
        old_name,
        more: frame.more,
        time: seen_time(&frame.body),
    })
}

fn read_statement(alloc: Global, statement: Statement, frame: &Frame) -> Result<Request, CmdErr>
    ensures { Gives (λ r. r) result (request_by (command.Statement statement) frame.now) }
{
    let op = read_op(alloc, statement, frame)?;
    Ok(Request::Statement {
        op,
        txn: statement_txn(frame),
        at: at_time(&frame.body),
        after: after_time(&frame.body),
        more: frame.more,
        time: seen_time(&frame.body),
    })
}

fn read_commit(alloc: Global, frame: &Frame) -> Result<Request, CmdErr>
    ensures { Gives (λ r. r) result (request_by command.Commit frame.now) }
{
    check(alloc, Command::Commit, frame)?;
    Ok(Request::Commit {
        txn: txn_in(&frame.body),
        token: token_under(&frame.body),
        more: frame.more,
        time: seen_time(&frame.body),
    })
}

fn read_abort(alloc: Global, frame: &Frame) -> Result<Request, CmdErr>
    ensures { Gives (λ r. r) result (request_by command.Abort frame.now) }
{
    check(alloc, Command::Abort, frame)?;
    Ok(Request::Abort {
        txn: txn_in(&frame.body),
        more: frame.more,
        time: seen_time(&frame.body),
    })
}

fn read_end_of_sessions(alloc: Global, frame: &Frame) -> Result<Request, CmdErr>
    ensures { Gives (λ r. r) result (request_by command.EndSessions frame.now) }
{
    check(alloc, Command::EndSessions, frame)?;
    Ok(Request::EndSessions {
        ids: sessions_under(alloc, &frame.body)?,
        more: frame.more,
        time: seen_time(&frame.body),
    })
}

/// The request of a command that is served.
fn read_request(alloc: Global, command: Command, frame: &Frame) -> Result<Request, CmdErr>
    ensures { Gives (λ r. r) result (request_by command frame.now) }
{
    match command {
        Command::Ping => read_ping(alloc, frame),
        Command::Hello { old_name } => read_hello(alloc, old_name, frame),
        Command::Statement(statement) => read_statement(alloc, statement, frame),
        Command::Commit => read_commit(alloc, frame),
        Command::Abort => read_abort(alloc, frame),
        Command::EndSessions => read_end_of_sessions(alloc, frame),
    }
}

/// The request that the message is, by the first name of its body, at this wall.
///
/// Otherwise the first of these refusals is answered: `Unknown` where there is no such command, or
/// none in that form of messages; `Unacknowledged` where the sender wants no answer; `RetryWrite`
/// where a write is to be retried by its number;
/// `ClusterTimeAhead` where a time is more than a year ahead; and `Parse` with what is wrong in its
/// fields.
#[tactic(auto, unfolding(crate::specs::Commands::request_of))]
pub fn read_command(alloc: Global, frame: &Frame, wall: u32) -> Result<Request, CmdErr>
    ensures { Gives (λ r. r) result (request_of wall frame.now) }
{
    let command = command_in(alloc, frame)?;
    if is_unacknowledged(frame) {
        return Err(CmdErr::Unacknowledged);
    }
    if is_retried(command, frame) {
        return Err(CmdErr::RetryWrite);
    }
    check_times(wall, &frame.body)?;
    read_request(alloc, command, frame)
}
