//! Lines of schedules, and what each asks.
use play_script::{Line, LineErr, read_line};
use std::alloc::{AllocError, Global};
use txn_types::NodeId;

/// The file of lines. Each stands before ` => ` and what it asks, or the name of its first fault;
/// after a `#` stands a remark.
pub const FILE: &str = "lines.cases";

fn node_text(alloc: Global, node: NodeId) -> Result<String, AllocError> {
    match node {
        NodeId::Shard(number) => format!(in alloc; "shard {number}"),
        NodeId::Router(number) => format!(in alloc; "router {number}"),
    }
}

/// The bytes' digits, in lower case.
fn digits_of(alloc: Global, bytes: &[u8]) -> Result<String, AllocError> {
    hex::encode(alloc, bytes)
}

/// What a line asks, as a line.
fn line_text(alloc: Global, line: &Line) -> Result<String, AllocError> {
    match line {
        Line::Ask { conn, bytes } => {
            let digits = digits_of(alloc, bytes.as_slice())?;
            format!(in alloc; "ask {conn} {digits}")
        }
        Line::Client { conn, bytes } => {
            let digits = digits_of(alloc, bytes.as_slice())?;
            format!(in alloc; "client {conn} {digits}")
        }
        Line::Gone { conn } => format!(in alloc; "gone {conn}"),
        Line::Deliver { number } => format!(in alloc; "deliver {number}"),
        Line::Lose { number } => format!(in alloc; "lose {number}"),
        Line::Settle => String::from_str(alloc, "settle"),
        Line::Restart { node } => {
            let node = node_text(alloc, *node)?;
            format!(in alloc; "restart {node}")
        }
        Line::Resend { node } => {
            let node = node_text(alloc, *node)?;
            format!(in alloc; "resend {node}")
        }
        Line::Wall { secs } => format!(in alloc; "wall {secs}"),
        Line::Dump => String::from_str(alloc, "dump"),
        Line::Log => String::from_str(alloc, "log"),
    }
}

/// What is told of the line.
fn told_of(alloc: Global, line: &str) -> Result<String, AllocError> {
    match read_line(alloc, line.as_bytes()) {
        Ok(line) => line_text(alloc, &line),
        Err(LineErr::Form) => String::from_str(alloc, "Form"),
        Err(LineErr::Hex) => String::from_str(alloc, "Hex"),
        Err(LineErr::Number) => String::from_str(alloc, "Number"),
        Err(LineErr::Memory) => Err(AllocError),
    }
}

/// Runs a case, and gives a line where it goes another way than it says.
fn fault_of(alloc: Global, case: &str) -> Result<String, AllocError> {
    let Some((line, expected)) = case.split_once(" => ") else {
        return format!(in alloc; "no case: {case}\n");
    };
    let told = told_of(alloc, line)?;
    if told.as_str() == expected {
        return Ok(String::new(alloc));
    }
    format!(in alloc; "{case}: told {told}\n")
}

/// Runs the cases of the text, and gives a line for each that goes another way than it says, and
/// how many there are.
pub fn report(alloc: Global, text: &str) -> Result<(String, u64), AllocError> {
    let mut report = String::new(alloc);
    let mut count: u64 = 0;
    for case in text.lines() {
        if !case.starts_with('#') {
            let fault = fault_of(alloc, case)?;
            report.push_str(fault.as_str())?;
            count = count.saturating_add(1);
        }
    }
    Ok((report, count))
}
