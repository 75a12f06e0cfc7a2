ghost use Rattle.std.specs.Prelude.{◌≡◌, ◌++◌, ◌-◌, ◌^◌, ◌<◌, ◌≤◌, ◌⊎◌, true, false, length, min, OnOk, OnErr, IfErr};
ghost use Rattle.std.specs.List.{flat_map};
ghost use Rattle.bson_core.specs.Spelling.{spelling};
ghost use Rattle.op_msg.specs.Message.{front, sequence_section, sequences, sections, flags_of, reply_front, message_by, message};

use crate::frame::{Frame, FrameErr};
use crate::words::put_word;
use bson_core::{Doc, Name, append, size};
use sqlite_items::Items;
use std::alloc::Global;

/// No message is longer.
const MOST: u64 = 400_000_000;

/// The bytes of the header and of the flags.
const FRONT_SIZE: u64 = 20;

/// The bytes of a sequence beside its name and its documents: the kind, the size, and the 00 after
/// the name.
const SEQUENCE_FRAME: u64 = 6;

/// The bytes of the header of an OP_REPLY and of its numbers.
const REPLY_FRONT_SIZE: u64 = 36;

const OP_MSG: u32 = 2013;

const OP_REPLY: u32 = 1;

/// The kind of the section that is the body.
const BODY: u8 = 0;

/// The kind of a section that is a sequence.
const SEQUENCE: u8 = 1;

/// The flag moreToCome.
const MORE: u32 = 2;

/// How many bytes the documents have, one after the other.
fn documents_size(docs: &[Doc]) -> u64
    ensures { result ≡ min (length (flat_map spelling docs.now)) (2 ^ 64 - 1) }
{
    let mut sum = 0u64;
    for doc in docs {
        sum = sum.saturating_add(size(doc));
    }
    sum
}

/// How many bytes the section has that holds the sequence.
#[tactic(auto, using(crate::proofs::Fronts::length_sequence_section))]
fn sequence_size(name: &Name, docs: &[Doc]) -> u64
    ensures { result
        ≡ min (length (sequence_section name.now (flat_map spelling docs.now))) (2 ^ 64 - 1) }
{
    let name = name.as_str().len() as u64;
    documents_size(docs)
        .saturating_add(name)
        .saturating_add(SEQUENCE_FRAME)
}

fn sequences_size(seqs: &[(Name, Items<Doc>)]) -> u64
    ensures { result ≡ min (length (sequences seqs.now)) (2 ^ 64 - 1) }
{
    let mut sum = 0u64;
    for (name, docs) in seqs {
        sum = sum.saturating_add(sequence_size(name, docs.as_slice()));
    }
    sum
}

/// How many bytes an OP_MSG has.
fn current_size(frame: &Frame) -> u64
    ensures { result ≡ min (length (message_by false frame.now)) (2 ^ 64 - 1) }
{
    let body = size(&frame.body).saturating_add(1);
    let sequences = sequences_size(frame.seqs.as_slice());
    body.saturating_add(sequences).saturating_add(FRONT_SIZE)
}

/// How many bytes an OP_REPLY has.
#[tactic(auto, using(crate::proofs::Fronts::length_reply))]
fn older_size(frame: &Frame) -> u64
    ensures { result ≡ min (length (message_by true frame.now)) (2 ^ 64 - 1) }
{
    size(&frame.body).saturating_add(REPLY_FRONT_SIZE)
}

/// How many bytes the message has.
fn message_size(frame: &Frame) -> u64
    ensures { result ≡ min (length (message frame.now)) (2 ^ 64 - 1) }
{
    if frame.legacy {
        older_size(frame)
    } else {
        current_size(frame)
    }
}

/// The flags of the message: moreToCome or none.
fn flags_of(more: bool) -> u32
    ensures { result ≡ flags_of more }
{
    if more { MORE } else { 0 }
}

/// Appends the message's header, with that length, and its flags.
fn put_front(out: &mut Vec<u8>, len: u32, frame: &Frame) -> Result<(), FrameErr>
    ensures ok { OnOk result (out.new.items ≡ out.old.items
        ++ front len frame.now.request_id frame.now.response_to (flags_of frame.now.more)) }
    ensures refused { IfErr result (λ e. e ≡ FrameErr.Memory) }
{
    put_word(out, len)?;
    put_word(out, frame.request_id.cast_unsigned())?;
    put_word(out, frame.response_to.cast_unsigned())?;
    put_word(out, OP_MSG)?;
    put_word(out, flags_of(frame.more))
}

fn put_document(out: &mut Vec<u8>, doc: &Doc) -> Result<(), FrameErr>
    ensures ok { OnOk result (out.new.items ≡ out.old.items ++ spelling doc.now) }
    ensures refused { IfErr result (λ e. e ≡ FrameErr.Memory) }
{
    append(doc, out)?;
    Ok(())
}

fn put_documents(out: &mut Vec<u8>, docs: &[Doc]) -> Result<(), FrameErr>
    ensures ok { OnOk result (out.new.items ≡ out.old.items ++ flat_map spelling docs.now) }
    ensures refused { IfErr result (λ e. e ≡ FrameErr.Memory) }
{
    for doc in docs {
        put_document(out, doc)?;
    }
    Ok(())
}

fn put_sequence(out: &mut Vec<u8>, name: &Name, docs: &[Doc]) -> Result<(), FrameErr>
    requires { length (sequence_section name.now (flat_map spelling docs.now)) ≤ MOST }
    ensures ok { OnOk result
        (out.new.items ≡ out.old.items ++ sequence_section name.now (flat_map spelling docs.now)) }
    ensures refused { IfErr result (λ e. e ≡ FrameErr.Memory) }
{
    // The size in a section doesn't count the kind in front of it.
    let size = sequence_size(name, docs) as u32 - 1;
    out.push(SEQUENCE)?;
    put_word(out, size)?;
    out.extend_from_slice(name.as_str().as_bytes())?;
    out.push(0)?;
    put_documents(out, docs)
}

fn put_sequences(out: &mut Vec<u8>, seqs: &[(Name, Items<Doc>)]) -> Result<(), FrameErr>
    requires { length (sequences seqs.now) ≤ MOST }
    ensures ok { OnOk result (out.new.items ≡ out.old.items ++ sequences seqs.now) }
    ensures refused { IfErr result (λ e. e ≡ FrameErr.Memory) }
{
    for (name, docs) in seqs {
        put_sequence(out, name, docs.as_slice())?;
    }
    Ok(())
}

fn put_sections(out: &mut Vec<u8>, frame: &Frame) -> Result<(), FrameErr>
    requires { length (sections frame.now) ≤ MOST }
    ensures ok { OnOk result (out.new.items ≡ out.old.items ++ sections frame.now) }
    ensures refused { IfErr result (λ e. e ≡ FrameErr.Memory) }
{
    out.push(BODY)?;
    put_document(out, &frame.body)?;
    put_sequences(out, frame.seqs.as_slice())
}

/// Appends the front of an OP_REPLY: the header, with that length, no flags, the cursor 0, and from
/// 0 on one document.
fn put_reply_front(out: &mut Vec<u8>, len: u32, frame: &Frame) -> Result<(), FrameErr>
    ensures ok { OnOk result (out.new.items
        ≡ out.old.items ++ reply_front len frame.now.request_id frame.now.response_to) }
    ensures refused { IfErr result (λ e. e ≡ FrameErr.Memory) }
{
    put_word(out, len)?;
    put_word(out, frame.request_id.cast_unsigned())?;
    put_word(out, frame.response_to.cast_unsigned())?;
    put_word(out, OP_REPLY)?;
    put_word(out, 0)?;
    put_word(out, 0)?;
    put_word(out, 0)?;
    put_word(out, 0)?;
    put_word(out, 1)
}

/// Appends an OP_MSG, which has that many bytes.
fn put_current(out: &mut Vec<u8>, len: u32, frame: &Frame) -> Result<(), FrameErr>
    requires sized { len ≡ length (message_by false frame.now) }
    requires small { len ≤ MOST }
    ensures ok { OnOk result (out.new.items ≡ out.old.items ++ message_by false frame.now) }
    ensures refused { IfErr result (λ e. e ≡ FrameErr.Memory) }
{
    put_front(out, len, frame)?;
    put_sections(out, frame)?;
    Ok(())
}

/// Appends an OP_REPLY, which has that many bytes.
fn put_older(out: &mut Vec<u8>, len: u32, frame: &Frame) -> Result<(), FrameErr>
    requires sized { len ≡ length (message_by true frame.now) }
    requires small { len ≤ MOST }
    ensures ok { OnOk result (out.new.items ≡ out.old.items ++ message_by true frame.now) }
    ensures refused { IfErr result (λ e. e ≡ FrameErr.Memory) }
{
    put_reply_front(out, len, frame)?;
    put_document(out, &frame.body)?;
    Ok(())
}

/// Appends the message, which has that many bytes.
fn put_message(out: &mut Vec<u8>, len: u32, frame: &Frame) -> Result<(), FrameErr>
    requires sized { len ≡ length (message frame.now) }
    requires small { len ≤ MOST }
    ensures ok { OnOk result (out.new.items ≡ out.old.items ++ message frame.now) }
    ensures refused { IfErr result (λ e. e ≡ FrameErr.Memory) }
{
    if frame.legacy {
        put_older(out, len, frame)
    } else {
        put_current(out, len, frame)
    }
}

/// Appends the message's bytes, in its one spelling: the body first, then the sequences, and no
/// checksum. Of the flags only moreToCome may be set. A message in the older form is an OP_REPLY,
/// which has one document: the body alone.
///
/// It goes through a document at most three times for its size, and once for its bytes.
pub fn write_frame(alloc: Global, frame: &Frame, out: &mut Vec<u8>) -> Result<(), FrameErr>
    ensures ok { OnOk result (out.new.items ≡ out.old.items ++ message frame.now) }
    // It is refused exactly where the message is longer than 400,000,000 bytes, or memory runs out.
    ensures too_large { result ≡ Err FrameErr.TooLarge → MOST < length (message frame.now) }
    ensures large { MOST < length (message frame.now) → result ≡ Err FrameErr.TooLarge }
    ensures refused { OnErr result (out.new.items ≡ out.old.items) }
    ensures causes { IfErr result (λ e. (e ≡ FrameErr.TooLarge) ⊎ (e ≡ FrameErr.Memory)) }
{
    let len = message_size(frame);
    if len > MOST {
        return Err(FrameErr::TooLarge);
    }
    let mut whole = Vec::new(alloc);
    put_message(&mut whole, len as u32, frame)?;
    out.extend_from_slice(&whole)?;
    Ok(())
}
