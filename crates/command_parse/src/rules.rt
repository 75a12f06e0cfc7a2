ghost use Rattle.std.specs.Prelude.{◌≡◌, IfOk};
ghost use Rattle.command_parse.specs.declared.command.Command.TheVariants as command;
ghost use Rattle.command_parse.specs.Commands.{list_name, batch_of, own_rule, common_rule, other_rule, rule_of, item_rule};

use crate::command::{Command, Statement};
use bson_core::Name;
use std::alloc::{AllocError, Global};

/// What the items of a list of changes do to the documents that match them.
#[derive(Clone, Copy, PartialEq, Eq)]
pub enum Change {
    Update,
    Delete,
}

/// The list of documents that a write has.
#[derive(Clone, Copy, PartialEq, Eq)]
pub enum Batch {
    /// Documents to insert.
    Documents,
    /// A filter each, and what is done to the documents that match it.
    Changes(Change),
}

/// What a field of a command has to be.
#[derive(Clone, Copy, PartialEq, Eq)]
pub enum Rule {
    /// Anything: it isn't looked at.
    Ignored,
    /// The name of a collection.
    Collection,
    /// The name of a database.
    Database,
    /// A document with the id of a session.
    Session,
    /// A document, which isn't looked at.
    Document,
    /// A filter.
    Filter,
    /// The order of what is found: by `_id`, rising or falling.
    Sort,
    /// A number, 0 or above.
    Limit,
    /// The number 0.
    Skip,
    /// Documents of that meaning.
    Batch(Batch),
    /// A number.
    Number,
    /// A truth value.
    Flag,
    /// The truth value false.
    Clear,
    /// A document with a cluster time.
    ClusterTime,
    /// A read concern.
    Concern,
    /// Documents with the ids of sessions, 1 to 100,000.
    Sessions,
}

/// What a field of an item has to be.
#[derive(Clone, Copy, PartialEq, Eq)]
pub enum ItemRule {
    /// A filter.
    Query,
    /// An update.
    Update,
    /// A truth value: whether all documents that match are updated.
    Multi,
    /// The truth value false.
    Upsert,
    /// The number 0 for all documents that match, or 1 for one of them.
    Limit,
}

impl Batch {
    /// The one that the statement has to have.
    pub fn of(statement: Statement) -> Option<Batch>
        ensures { result ≡ batch_of statement }
    {
        match statement {
            Statement::Insert => Some(Batch::Documents),
            Statement::Find => None,
            Statement::Update => Some(Batch::Changes(Change::Update)),
            Statement::Delete => Some(Batch::Changes(Change::Delete)),
        }
    }

    /// The name of its field or section.
    pub fn as_str(self) -> &'static str
        ensures { result.now ≡ list_name self }
    {
        match self {
            Batch::Documents => "documents",
            Batch::Changes(Change::Update) => "updates",
            Batch::Changes(Change::Delete) => "deletes",
        }
    }

    /// The name of its field or section, as a name.
    pub fn name(self, alloc: Global) -> Result<Name, AllocError>
        ensures { IfOk result (λ n. n ≡ list_name self) }
    {
        match self {
            Batch::Documents => Name::from_str(alloc, "documents"),
            Batch::Changes(Change::Update) => Name::from_str(alloc, "updates"),
            Batch::Changes(Change::Delete) => Name::from_str(alloc, "deletes"),
        }
    }
}

/// The rule of the statement's own field of that name.
fn statement_rule(statement: Statement, name: &str) -> Option<Rule>
    ensures { result ≡ own_rule (command.Statement statement) name.now }
{
    match statement {
        Statement::Insert => match name {
            "insert" => Some(Rule::Collection),
            "documents" => Some(Rule::Batch(Batch::Documents)),
            "ordered" => Some(Rule::Ignored),
            _ => None,
        },
        Statement::Find => match name {
            "find" => Some(Rule::Collection),
            "filter" => Some(Rule::Filter),
            "sort" => Some(Rule::Sort),
            "limit" => Some(Rule::Limit),
            "skip" => Some(Rule::Skip),
            "batchSize" | "singleBatch" => Some(Rule::Ignored),
            _ => None,
        },
        Statement::Update => match name {
            "update" => Some(Rule::Collection),
            "updates" => Some(Rule::Batch(Batch::Changes(Change::Update))),
            "ordered" => Some(Rule::Ignored),
            _ => None,
        },
        Statement::Delete => match name {
            "delete" => Some(Rule::Collection),
            "deletes" => Some(Rule::Batch(Batch::Changes(Change::Delete))),
            "ordered" => Some(Rule::Ignored),
            _ => None,
        },
    }
}

/// The rule of the command's own field of that name.
fn own_rule(command: Command, name: &str) -> Option<Rule>
    ensures { result ≡ own_rule command name.now }
{
    match command {
        Command::Ping => match name {
            "ping" => Some(Rule::Ignored),
            _ => None,
        },
        Command::Hello { .. } => None,
        Command::Statement(statement) => statement_rule(statement, name),
        Command::Commit => match name {
            "commitTransaction" | "recoveryToken" => Some(Rule::Ignored),
            "autocommit" => Some(Rule::Clear),
            _ => None,
        },
        Command::Abort => match name {
            "abortTransaction" | "recoveryToken" => Some(Rule::Ignored),
            "autocommit" => Some(Rule::Clear),
            _ => None,
        },
        Command::EndSessions => match name {
            "endSessions" => Some(Rule::Sessions),
            _ => None,
        },
    }
}

/// The rule of the field of that name, which all commands have.
fn common_rule(name: &str) -> Option<Rule>
    ensures { result ≡ common_rule name.now }
{
    match name {
        "$db" => Some(Rule::Database),
        "lsid" => Some(Rule::Session),
        "txnNumber" => Some(Rule::Number),
        "autocommit" | "startTransaction" => Some(Rule::Flag),
        "readConcern" => Some(Rule::Concern),
        "$clusterTime" => Some(Rule::ClusterTime),
        "writeConcern" => Some(Rule::Document),
        "$readPreference"
        | "comment"
        | "maxTimeMS"
        | "apiVersion"
        | "apiStrict"
        | "apiDeprecationErrors"
        | "bypassDocumentValidation" => Some(Rule::Ignored),
        _ => None,
    }
}

/// The rule of a field that is none of the command's: a hello may have any.
fn other_rule(command: Command) -> Option<Rule>
    ensures { result ≡ other_rule command }
{
    match command {
        Command::Hello { .. } => Some(Rule::Ignored),
        Command::Ping
        | Command::Statement(_)
        | Command::Commit
        | Command::Abort
        | Command::EndSessions => None,
    }
}

impl Rule {
    /// The one for the command's field of that name.
    pub fn of(command: Command, name: &str) -> Option<Rule>
        ensures { result ≡ rule_of command name.now }
    {
        own_rule(command, name).or(common_rule(name).or(other_rule(command)))
    }
}

impl ItemRule {
    /// The one for the field of that name in an item.
    pub fn of(change: Change, name: &str) -> Option<ItemRule>
        ensures { result ≡ item_rule change name.now }
    {
        match change {
            Change::Update => match name {
                "q" => Some(ItemRule::Query),
                "u" => Some(ItemRule::Update),
                "multi" => Some(ItemRule::Multi),
                "upsert" => Some(ItemRule::Upsert),
                _ => None,
            },
            Change::Delete => match name {
                "q" => Some(ItemRule::Query),
                "limit" => Some(ItemRule::Limit),
                _ => None,
            },
        }
    }
}
