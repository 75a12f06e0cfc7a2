ghost use Rattle.std.specs.Prelude.{◌≡◌, IfOk};
ghost use Rattle.command_parse.specs.Commands.{command_named, name_of};

use bson_core::Name;
use std::alloc::{AllocError, Global};

/// A command that is read.
#[derive(Clone, Copy, PartialEq, Eq)]
pub enum Command {
    Ping,
    /// What the server is; by an older name where `old_name`.
    Hello { old_name: bool },
    Statement(Statement),
    Commit,
    Abort,
    EndSessions,
}

/// A command that is an operation on a collection.
#[derive(Clone, Copy, PartialEq, Eq)]
pub enum Statement {
    Insert,
    Find,
    Update,
    Delete,
}

impl Command {
    /// The one of that name.
    pub fn of(name: &str) -> Option<Command>
        ensures { result ≡ command_named name.now }
    {
        match name {
            "ping" => Some(Command::Ping),
            "hello" => Some(Command::Hello { old_name: false }),
            "isMaster" | "ismaster" => Some(Command::Hello { old_name: true }),
            "insert" => Some(Command::Statement(Statement::Insert)),
            "find" => Some(Command::Statement(Statement::Find)),
            "update" => Some(Command::Statement(Statement::Update)),
            "delete" => Some(Command::Statement(Statement::Delete)),
            "commitTransaction" => Some(Command::Commit),
            "abortTransaction" => Some(Command::Abort),
            "endSessions" => Some(Command::EndSessions),
            _ => None,
        }
    }
}

impl Statement {
    /// The name of its command.
    pub fn as_str(self) -> &'static str
        ensures { result.now ≡ name_of self }
    {
        match self {
            Statement::Insert => "insert",
            Statement::Find => "find",
            Statement::Update => "update",
            Statement::Delete => "delete",
        }
    }

    /// The name of its command, as a name.
    pub fn name(self, alloc: Global) -> Result<Name, AllocError>
        ensures { IfOk result (λ n. n ≡ name_of self) }
    {
        match self {
            Statement::Insert => Name::from_str(alloc, "insert"),
            Statement::Find => Name::from_str(alloc, "find"),
            Statement::Update => Name::from_str(alloc, "update"),
            Statement::Delete => Name::from_str(alloc, "delete"),
        }
    }
}
