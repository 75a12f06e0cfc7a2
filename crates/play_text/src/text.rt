//! The lines that are written of steps.
ghost use Rattle.std.specs.Prelude.{◌≡◌, ◌++◌, decimal, OnOk};
ghost use Rattle.client_reply.specs.Texts.{time_text, tag_text};
ghost use Rattle.play_text.specs.Dump.{way_text};
ghost use Rattle.play_text.specs.Text.{reply_line, closed_line, node_text, kind_text, sent_line, held_line, boot_line};

use itoa::Buffer;
use std::alloc::{AllocError, Global};
use txn_types::{Envelope, Msg, NodeId, Tag, Ts};

/// Appends a line with a reply's bytes.
pub fn put_reply(
    alloc: Global,
    out: &mut Vec<u8>,
    conn: u32,
    bytes: &[u8],
) -> Result<(), AllocError>
    ensures { OnOk result (out.new.items ≡ out.old.items ++ reply_line conn bytes.now) }
{
    let digits = hex::encode(alloc, bytes)?;
    let text = format!(in alloc; "reply {conn} {digits}\n")?;
    out.extend_from_slice(text.as_bytes())
}

/// Appends a line on a connection that is closed, for the reason of that number.
pub fn put_closed(alloc: Global, out: &mut Vec<u8>, conn: u32, number: u8) -> Result<(), AllocError>
    ensures { OnOk result (out.new.items ≡ out.old.items ++ closed_line conn number) }
{
    let text = format!(in alloc; "closed {conn} {number}\n")?;
    out.extend_from_slice(text.as_bytes())
}

/// A node's kind by a letter, and its number.
fn put_node(alloc: Global, out: &mut Vec<u8>, node: NodeId) -> Result<(), AllocError>
    ensures { OnOk result (out.new.items ≡ out.old.items ++ node_text node) }
{
    let text = match node {
        NodeId::Shard(number) => format!(in alloc; "s{number}")?,
        NodeId::Router(number) => format!(in alloc; "r{number}")?,
    };
    out.extend_from_slice(text.as_bytes())
}

/// A time as seconds, a full stop and an increment.
pub fn put_time(alloc: Global, out: &mut Vec<u8>, time: Ts) -> Result<(), AllocError>
    ensures { OnOk result (out.new.items ≡ out.old.items ++ time_text time) }
{
    let seconds = time.0 >> 32;
    let increment = time.0 & 0xffff_ffff;
    let text = format!(in alloc; "{seconds}.{increment}")?;
    out.extend_from_slice(text.as_bytes())
}

/// A tag as router, boot and serial, parted by full stops.
pub fn put_tag(alloc: Global, out: &mut Vec<u8>, tag: Tag) -> Result<(), AllocError>
    ensures { OnOk result (out.new.items ≡ out.old.items ++ tag_text tag) }
{
    let Tag {
        router,
        boot,
        serial,
    } = tag;
    let text = format!(in alloc; "{router}.{boot}.{serial}")?;
    out.extend_from_slice(text.as_bytes())
}

/// The name of a message's kind.
fn kind_of(msg: &Msg) -> &'static str
    ensures { result.now ≡ kind_text msg.now }
{
    match msg {
        Msg::Statement(_) => "Statement",
        Msg::Answer(_) => "Answer",
        Msg::Commit(_) => "Commit",
        Msg::Outcome(_) => "Outcome",
        Msg::Abort(_) => "Abort",
        Msg::CommitTwo(_) => "CommitTwo",
        Msg::Prepare(_) => "Prepare",
        Msg::Vote(_) => "Vote",
        Msg::Decide(_) => "Decide",
        Msg::Acked(_) => "Acked",
        Msg::Recover(_) => "Recover",
        Msg::Nudge => "Nudge",
    }
}

/// A number, in decimal digits.
fn put_number(out: &mut Vec<u8>, number: u64) -> Result<(), AllocError>
    ensures { OnOk result (out.new.items ≡ out.old.items ++ decimal number) }
{
    let mut buffer = Buffer::new();
    out.extend_from_slice(buffer.format(number).as_bytes())
}

/// From where to where a message goes, and its kind.
fn put_way(alloc: Global, out: &mut Vec<u8>, envelope: &Envelope) -> Result<(), AllocError>
    ensures { OnOk result (out.new.items ≡ out.old.items ++ way_text envelope.now) }
{
    put_node(alloc, out, envelope.from)?;
    out.extend_from_slice(b" ")?;
    put_node(alloc, out, envelope.to)?;
    out.extend_from_slice(b" ")?;
    out.extend_from_slice(kind_of(&envelope.msg).as_bytes())
}

/// Appends a line on a message, by its number.
pub fn put_sent(
    alloc: Global,
    out: &mut Vec<u8>,
    number: u64,
    envelope: &Envelope,
) -> Result<(), AllocError>
    ensures { OnOk result (out.new.items ≡ out.old.items ++ sent_line number envelope.now) }
{
    out.extend_from_slice(b"sent ")?;
    put_number(out, number)?;
    out.extend_from_slice(b" ")?;
    put_way(alloc, out, envelope)?;
    out.extend_from_slice(b"\n")
}

/// Appends a line on a message that is held by a prepared transaction.
pub fn put_held(
    alloc: Global,
    out: &mut Vec<u8>,
    number: u64,
    tag: Tag,
    at: Ts,
) -> Result<(), AllocError>
    ensures { OnOk result (out.new.items ≡ out.old.items ++ held_line number tag at) }
{
    out.extend_from_slice(b"held ")?;
    put_number(out, number)?;
    out.extend_from_slice(b" ")?;
    put_tag(alloc, out, tag)?;
    out.extend_from_slice(b" ")?;
    put_time(alloc, out, at)?;
    out.extend_from_slice(b"\n")
}

/// Appends a line on a node that started anew.
pub fn put_boot(alloc: Global, out: &mut Vec<u8>, node: NodeId, boot: u32) -> Result<(), AllocError>
    ensures { OnOk result (out.new.items ≡ out.old.items ++ boot_line node boot) }
{
    out.extend_from_slice(b"boot ")?;
    put_node(alloc, out, node)?;
    let text = format!(in alloc; " {boot}\n")?;
    out.extend_from_slice(text.as_bytes())
}
