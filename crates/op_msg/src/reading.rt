ghost use Rattle.std.specs.Prelude.{◌≡◌, ◌+◌, ◌-◌, ◌<◌, ◌≤◌, Ok, Some, None, [], length, IfOk};
ghost use Rattle.op_msg.specs.Message.{has_flag, is_internal, IsMessage};
ghost use Rattle.op_msg.specs.Errors.{Gives, from_name};
ghost use Rattle.op_msg.specs.Reading.{number, extent, document_at, documents_at, name_at, sequence_at, section_at, finish, sections_at, least_flag, without_sum, contents_at, second_at, query_at, contents_in, contents_within, is_older, frame_by, frame_of};
ghost use Rattle.op_msg.specs.declared.frame.Frame.{Frame as AnyFrame};

use crate::frame::{Frame, FrameErr};
use crate::header::{Header, read_header};
use bson_core::{BsonErr, Doc, Name, Value, decode, front_name, front_u32, get};
use sqlite_items::Items;
use std::alloc::Global;

/// No message is longer, and no document in one.
const MOST: u32 = 400_000_000;

/// No client's message is longer.
const CLIENT_MOST: usize = 48_000_000;

/// A length is an int32 that isn't negative.
const LENGTH_MOST: u32 = 0x7fff_ffff;

const OP_MSG: u32 = 2013;

const OP_QUERY: u32 = 2004;

/// A number that is a part of a section.
fn read_number(bytes: &[u8]) -> Result<(u32, &[u8]), FrameErr>
    ensures { Gives (λ x. (x.0, x.1.now)) result (number bytes.now) }
{
    match front_u32(bytes) {
        Some(found) => Ok(found),
        None => Err(FrameErr::Section),
    }
}

/// How many bytes the document at the front is read from.
#[tactic(auto, unfolding(crate::specs::Reading::extent))]
fn extent(bytes: &[u8]) -> usize
    ensures size { result ≡ extent bytes.now }
    ensures within { result ≤ length bytes.now }
{
    let Some((count, _)) = front_u32(bytes) else {
        return bytes.len();
    };
    let count = count as usize;
    if count < 5 || bytes.len() < count {
        return bytes.len();
    }
    count
}

/// The document at the front, and the bytes after it.
#[tactic(auto, unfolding(crate::specs::Reading::document_at))]
fn read_document(alloc: Global, bytes: &[u8]) -> Result<(Doc, &[u8]), FrameErr>
    ensures { Gives (λ x. (x.0, x.1.now)) result (document_at bytes.now) }
{
    let (own, rest) = bytes.split_at(extent(bytes));
    let doc = decode(alloc, own, MOST)?;
    Ok((doc, rest))
}

/// The documents that are all of the bytes.
fn read_documents(alloc: Global, bytes: &[u8]) -> Result<Vec<Doc>, FrameErr>
    ensures { Gives (λ x. x.items) result (documents_at (length bytes.now + 1) [] bytes.now) }
{
    let mut docs = Vec::new(alloc);
    let mut rest = bytes;
    for _ in 0..bytes.len() + 1 {
        if rest.is_empty() {
            return Ok(docs);
        }
        let (doc, after) = read_document(alloc, rest)?;
        docs.push(doc)?;
        rest = after;
    }
    Err(FrameErr::Section)
}

/// A name that isn't one, as a fault of its section.
fn name_fault(error: BsonErr) -> FrameErr
    ensures { result ≡ from_name error }
{
    match error {
        BsonErr::Memory => FrameErr::Memory,
        BsonErr::Short
        | BsonErr::Length { .. }
        | BsonErr::Kind { .. }
        | BsonErr::Text { .. }
        | BsonErr::Bool { .. }
        | BsonErr::Deep { .. }
        | BsonErr::TooLarge => FrameErr::Section,
    }
}

#[tactic(auto, unfolding(crate::specs::Reading::name_at))]
fn read_name(alloc: Global, bytes: &[u8]) -> Result<(Name, &[u8]), FrameErr>
    ensures { Gives (λ x. (x.0, x.1.now)) result (name_at bytes.now) }
{
    match front_name(alloc, 0, bytes) {
        Ok(found) => Ok(found),
        Err(error) => Err(name_fault(error)),
    }
}

/// A section of kind 1, without its kind, and the bytes after it.
#[tactic(auto, unfolding(crate::specs::Reading::sequence_at))]
fn read_sequence(alloc: Global, bytes: &[u8]) -> Result<((Name, Items<Doc>), &[u8]), FrameErr>
    ensures { Gives (λ x. (x.0, x.1.now)) result (sequence_at bytes.now) }
{
    let (size, rest) = read_number(bytes)?;
    let size = size as usize;
    if size < 4 || rest.len() < size - 4 {
        return Err(FrameErr::Section);
    }
    let (inside, after) = rest.split_at(size - 4);
    let (name, inside) = read_name(alloc, inside)?;
    let docs = read_documents(alloc, inside)?;
    Ok(((name, Items::from_vec(docs)), after))
}

/// What was read of a message's sections: its body, if it came, and its sequences.
#[derive(Drop)]
struct Sections {
    body: Option<Doc>,
    seqs: Vec<(Name, Items<Doc>)>,
}

/// The sections that were found and one more, of that kind, and the bytes after it.
#[tactic(auto, unfolding(crate::specs::Reading::section_at))]
fn read_section(
    alloc: Global,
    found: Sections,
    kind: u8,
    bytes: &[u8],
) -> Result<(Sections, &[u8]), FrameErr>
    ensures { Gives (λ x. ((x.0.body, x.0.seqs.items), x.1.now)) result
        (section_at (found.body, found.seqs.items) kind bytes.now) }
{
    let Sections { body, mut seqs } = found;
    if kind == 0 {
        if body.is_some() {
            return Err(FrameErr::TwoBodies);
        }
        let (doc, rest) = read_document(alloc, bytes)?;
        let body = Some(doc);
        return Ok((Sections { body, seqs }, rest));
    }
    if kind == 1 {
        let (sequence, rest) = read_sequence(alloc, bytes)?;
        seqs.push(sequence)?;
        return Ok((Sections { body, seqs }, rest));
    }
    Err(FrameErr::Section)
}

/// The body, which has to be there, and the sequences.
fn finish(found: Sections) -> Result<(Doc, Vec<(Name, Items<Doc>)>), FrameErr>
    ensures { Gives (λ x. (x.0, x.1.items)) result (finish (found.body, found.seqs.items)) }
{
    let Sections { body, seqs } = found;
    match body {
        Some(body) => Ok((body, seqs)),
        None => Err(FrameErr::NoBody),
    }
}

/// The sections that are all of the bytes.
fn read_sections(alloc: Global, bytes: &[u8]) -> Result<(Doc, Vec<(Name, Items<Doc>)>), FrameErr>
    ensures { Gives (λ x. (x.0, x.1.items)) result
        (sections_at (length bytes.now + 1) (None, []) bytes.now) }
{
    let mut found = Sections {
        body: None,
        seqs: Vec::new(alloc),
    };
    let mut rest = bytes;
    for _ in 0..bytes.len() + 1 {
        let Some((kind, after)) = rest.split_first() else {
            return finish(found);
        };
        let (more, after) = read_section(alloc, found, *kind, after)?;
        found = more;
        rest = after;
    }
    Err(FrameErr::Section)
}

fn has_flag(bit: u8, flags: u32) -> bool
    requires { bit < 32 }
    ensures { result ≡ has_flag bit flags }
{
    (flags >> bit) % 2 == 1
}

/// The least flag from 2 to 15 that is set.
fn least_unknown_flag(flags: u32) -> Option<u8>
    ensures { result ≡ least_flag 14 2 flags }
{
    for bit in 2..16u8 {
        if has_flag(bit, flags) {
            return Some(bit);
        }
    }
    None
}

/// The bytes of the sections, in front of a checksum where there is one.
fn without_sum(is_there: bool, bytes: &[u8]) -> Result<&[u8], FrameErr>
    ensures { Gives (λ x. x.now) result (without_sum is_there bytes.now) }
{
    if !is_there {
        return Ok(bytes);
    }
    if bytes.len() < 4 {
        return Err(FrameErr::Section);
    }
    Ok(&bytes[..bytes.len() - 4])
}

/// What a message holds after its header.
#[derive(Drop)]
struct Contents {
    more: bool,
    body: Doc,
    seqs: Vec<(Name, Items<Doc>)>,
}

/// The flags, the sections and a checksum, which isn't compared.
#[tactic(auto, unfolding(crate::specs::Reading::contents_at))]
fn read_contents(alloc: Global, bytes: &[u8]) -> Result<Contents, FrameErr>
    ensures { Gives (λ c. (c.more, c.body, c.seqs.items)) result (contents_at bytes.now) }
{
    let (flags, rest) = read_number(bytes)?;
    if let Some(bit) = least_unknown_flag(flags) {
        return Err(FrameErr::Flags { bit });
    }
    let inside = without_sum(has_flag(0, flags), rest)?;
    let (body, seqs) = read_sections(alloc, inside)?;
    let more = has_flag(1, flags);
    Ok(Contents { more, body, seqs })
}

/// Whether the body is one of a message between nodes.
fn is_internal(body: &Doc) -> bool
    ensures { result ≡ is_internal body.now }
{
    match get(body, "$db") {
        Some(Value::Text(name)) => name.as_str() == "mtx",
        _ => false,
    }
}

/// What stands after the first document of an OP_QUERY: nothing, or a second one, which is
/// dropped.
fn read_second(alloc: Global, bytes: &[u8]) -> Result<(), FrameErr>
    ensures { Gives (λ x. x) result (second_at bytes.now) }
{
    if bytes.is_empty() {
        return Ok(());
    }
    let (_, rest) = read_document(alloc, bytes)?;
    if !rest.is_empty() {
        return Err(FrameErr::Section);
    }
    Ok(())
}

/// The first document of an OP_QUERY: after flags, a collection's name, and how many documents are
/// to be passed over and given, none of which counts.
#[tactic(auto, unfolding(crate::specs::Reading::query_at))]
fn read_query(alloc: Global, bytes: &[u8]) -> Result<Doc, FrameErr>
    ensures { Gives (λ d. d) result (query_at bytes.now) }
{
    let (_, rest) = read_number(bytes)?;
    let (_, rest) = read_name(alloc, rest)?;
    let (_, rest) = read_number(rest)?;
    let (_, rest) = read_number(rest)?;
    let (body, rest) = read_document(alloc, rest)?;
    read_second(alloc, rest)?;
    Ok(body)
}

/// What stands after a header, in the older form or in that of today.
fn read_in_form(alloc: Global, legacy: bool, bytes: &[u8]) -> Result<Contents, FrameErr>
    ensures { Gives (λ c. (c.more, c.body, c.seqs.items)) result (contents_in legacy bytes.now) }
{
    if !legacy {
        return read_contents(alloc, bytes);
    }
    let body = read_query(alloc, bytes)?;
    Ok(Contents {
        more: false,
        body,
        seqs: Vec::new(alloc),
    })
}

/// The contents of a message of that many bytes.
fn read_within_limits(
    alloc: Global,
    legacy: bool,
    len: usize,
    bytes: &[u8],
) -> Result<Contents, FrameErr>
    ensures { Gives (λ c. (c.more, c.body, c.seqs.items)) result
        (contents_within legacy len bytes.now) }
{
    let contents = read_in_form(alloc, legacy, bytes)?;
    if len > CLIENT_MOST && !is_internal(&contents.body) {
        return Err(FrameErr::TooLarge);
    }
    Ok(contents)
}

/// Whether an operation that is read is the older one.
fn is_older(op_code: u32) -> Result<bool, FrameErr>
    ensures { result ≡ is_older op_code }
{
    match op_code {
        OP_MSG => Ok(false),
        OP_QUERY => Ok(true),
        _ => Err(FrameErr::OpCode),
    }
}

/// The message that is all of the bytes, or its first fault.
#[tactic(auto, unfolding(crate::specs::Reading::frame_of))]
fn read_whole(alloc: Global, bytes: &[u8]) -> Result<Frame, FrameErr>
    ensures { Gives (λ f. f) result (frame_of bytes.now) }
{
    let (header, rest) = read_header(bytes)?;
    if header.len > LENGTH_MOST || header.len as usize != bytes.len() {
        return Err(FrameErr::Length);
    }
    if bytes.len() > MOST as usize {
        return Err(FrameErr::TooLarge);
    }
    let legacy = is_older(header.op_code)?;
    let contents = read_within_limits(alloc, legacy, bytes.len(), rest)?;
    Ok(frame(header, legacy, contents))
}

fn frame(header: Header, legacy: bool, contents: Contents) -> Frame
    ensures { result ≡ frame_by header legacy (contents.more, contents.body, contents.seqs.items) }
{
    Frame {
        request_id: header.request_id.cast_signed(),
        response_to: header.response_to.cast_signed(),
        legacy,
        more: contents.more,
        body: contents.body,
        seqs: Items::from_vec(contents.seqs),
    }
}

/// Reads one message, which is all of the bytes. It is an OP_MSG with one section of kind 0 and any
/// number of kind 1, or an OP_QUERY with a document, the body, and maybe a second one, which is
/// dropped. It has at most 48,000,000 bytes, or
/// 400,000,000 where the body's first `$db` is the text `mtx`.
///
/// The flags exhaustAllowed and 17 to 31 are passed over, as are all of an OP_QUERY's, and a
/// checksum isn't compared. Otherwise the first fault is answered, in this order: `Length`;
/// `TooLarge` above 400,000,000; `OpCode`; `Flags`; those of the parts from front to back;
/// `NoBody`; `TooLarge` for a client's message.
///
/// It goes through the bytes once, and takes no memory for a size before its bytes stand.
pub fn read_frame(alloc: Global, bytes: &[u8]) -> Result<Frame, FrameErr>
    // The message, or its first fault; or memory ran out.
    ensures read { Gives (λ f. f) result (frame_of bytes.now) }
    // What is read is a message.
    ensures found { IfOk result (λ f. IsMessage bytes.now f) }
    // A message is read, unless memory runs out.
    ensures only { (f : AnyFrame) → IsMessage bytes.now f → Gives (λ f. f) result (Ok f) }
{
    read_whole(alloc, bytes)
}
