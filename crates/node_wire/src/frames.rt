//! Messages of nodes as OP_MSG frames.
ghost use Rattle.std.specs.Prelude.{◌≡◌, List, ℕ, [], ◌&&◌, ◌<◌, not, codes, length, option_map, IfOk, IfErr, MatchOption, None, Some};
ghost use Rattle.bson_core.specs.Fields.{Document};
ghost use Rattle.bson_core.specs.declared.value.Value.TheViews.{out-Value};
ghost use Rattle.op_msg.specs.Message.{is_text};
ghost use Rattle.node_wire.specs.Errors.{Gives, Makes};
ghost use Rattle.node_wire.specs.Output.{joined};
ghost use Rattle.node_wire.specs.Spelling.{body_of, frame_of, envelope_frame, batch_frame};
ghost use Rattle.node_wire.specs.Reading.{kind_in, bytes_in, content_of, content_in, or_not_internal, one_to, envelope_in, batch_in};

use crate::error::WireErr;
use crate::messages::{read_batch, read_envelope};
use crate::output::Output;
use crate::spell_messages::{msg_kind, put_batch, put_envelope};
use bson_core::{Bin, Bytes, Doc, Name, Text, Value};
use op_msg::Frame;
use sqlite_items::Items;
use std::alloc::{AllocError, Global};
use txn_types::Envelope;

/// A number that isn't negative.
fn kind_in(value: &Value) -> Option<u32>
    ensures { result ≡ kind_in (out-Value value.now) }
{
    match value {
        Value::Int(number) => u32::try_from(*number).ok(),
        _ => None,
    }
}

/// The bytes of a binary of subtype 0.
fn bytes_in(value: &Value) -> Option<&[u8]>
    ensures { MatchOption result (bytes_in (out-Value value.now) ≡ None)
        (λ b. bytes_in (out-Value value.now) ≡ Some b.now) }
{
    match value {
        Value::Bin(bin) => {
            if bin.subtype == 0 {
                Some(bin.bytes.as_slice())
            } else {
                None
            }
        }
        _ => None,
    }
}

fn is_mtx(value: &Value) -> bool
    ensures { result ≡ is_text (codes "mtx") (out-Value value.now) }
{
    match value {
        Value::Text(text) => text.as_str() == "mtx",
        _ => false,
    }
}

/// The kind and the bytes that a body holds, where it has the three fields.
fn content_of(body: &Doc) -> Option<(u32, &[u8])>
    ensures { MatchOption result (content_of body.now ≡ None)
        (λ x. content_of body.now ≡ Some (x.0, x.1.now)) }
{
    match body.as_slice() {
        [(first, kind), (second, database), (third, content)] => {
            if first.as_str() == "mtx"
                && second.as_str() == "$db"
                && third.as_str() == "b"
                && is_mtx(database)
            {
                Some((kind_in(kind)?, bytes_in(content)?))
            } else {
                None
            }
        }
        _ => None,
    }
}

/// The kind and the bytes that a frame holds, where it is one between nodes.
fn content_in(frame: &Frame) -> Result<(u32, &[u8]), WireErr>
    ensures { Gives (λ x. (x.0, x.1.now)) result (or_not_internal (content_in frame.now)) }
{
    if frame.legacy || !frame.seqs.is_empty() {
        return Err(WireErr::NotInternal);
    }
    content_of(&frame.body).ok_or(WireErr::NotInternal)
}

/// The kind of an envelope.
fn envelope_kind(number: u32) -> Result<u8, WireErr>
    ensures { Gives (λ k. k) result (or_not_internal (one_to 12 number)) }
{
    if 1 <= number && number <= 12 {
        Ok(number as u8)
    } else {
        Err(WireErr::NotInternal)
    }
}

/// The envelope that a frame holds. The place of a field that can't be read counts from the first
/// byte of `b`.
#[tactic(auto, unfolding(crate::specs::Reading::envelope_in))]
pub fn from_frame(alloc: Global, frame: &Frame) -> Result<Envelope, WireErr>
    ensures { Gives (λ e. e) result (envelope_in frame.now) }
{
    let (number, bytes) = content_in(frame)?;
    let kind = envelope_kind(number)?;
    read_envelope(alloc, kind, bytes.len() as u64, bytes)
}

/// The batch that a frame holds.
#[tactic(auto, unfolding(crate::specs::Reading::batch_in))]
pub fn batch_from_frame(alloc: Global, frame: &Frame) -> Result<Vec<Envelope>, WireErr>
    ensures { Gives (λ v. v.items) result (batch_in frame.now) }
{
    let (number, bytes) = content_in(frame)?;
    if number != 0 {
        return Err(WireErr::NotInternal);
    }
    read_batch(alloc, bytes)
}

/// The body of a message of this kind.
fn body_of(alloc: Global, kind: u8, bytes: Vec<u8>) -> Result<Doc, AllocError>
    ensures { IfOk result (λ d. d ≡ body_of kind bytes.items) }
{
    let mut fields = Vec::new(alloc);
    let number = Value::Int(i32::from(kind));
    fields.push((Name::from_str(alloc, "mtx")?, number))?;
    let database = Text::new(String::from_str(alloc, "mtx")?);
    fields.push((Name::from_str(alloc, "$db")?, Value::Text(database)))?;
    let content = Bin {
        subtype: 0,
        bytes: Bytes::new(bytes),
    };
    fields.push((Name::from_str(alloc, "b")?, Value::Bin(content)))?;
    Ok(Items::from_vec(fields))
}

fn frame_of(alloc: Global, kind: u8, bytes: Vec<u8>) -> Result<Frame, AllocError>
    ensures { IfOk result (λ f. f ≡ frame_of kind bytes.items) }
{
    let body = body_of(alloc, kind, bytes)?;
    Ok(Frame {
        request_id: 0,
        response_to: 0,
        legacy: false,
        more: false,
        body,
        seqs: Items::new(alloc),
    })
}

/// The frame of what was written, where that isn't too much.
fn made(alloc: Global, kind: u8, out: Output) -> Result<Frame, WireErr>
    ensures { (bytes : List ℕ) → out ≡ joined (Some []) bytes → Makes (frame_of kind bytes) result }
{
    match out.finish() {
        Some(bytes) => Ok(frame_of(alloc, kind, bytes)?),
        None => Err(WireErr::TooLarge),
    }
}

/// The frame of an envelope. It is refused exactly where its message would have more than
/// 400,000,000 bytes, or out of memory.
pub fn to_frame(alloc: Global, envelope: &Envelope) -> Result<Frame, WireErr>
    ensures { Makes (envelope_frame envelope.now) result }
{
    let mut out = Output::new(alloc);
    put_envelope(alloc, &mut out, envelope)?;
    made(alloc, msg_kind(&envelope.msg), out)
}

/// The frame of a batch. It is refused exactly where its message would have more than 400,000,000
/// bytes, or out of memory.
pub fn batch_to_frame(alloc: Global, envelopes: &[Envelope]) -> Result<Frame, WireErr>
    ensures { Makes (batch_frame envelopes.now) result }
{
    let mut out = Output::new(alloc);
    put_batch(alloc, &mut out, envelopes)?;
    made(alloc, 0, out)
}
