//! A law is the contract of a function that changes nothing and gives nothing.
ghost use Rattle.std.specs.Prelude.{◌≡◌, ◌↔◌, ◌<◌, List, ℕ, Err, length};
ghost use Rattle.op_msg.specs.Limits.{most_internal};
ghost use Rattle.bson_core.specs.declared.error.BsonErr.{BsonErr};
ghost use Rattle.bson_core.specs.Reading.{document_of};
ghost use Rattle.op_msg.specs.Reading.{frame_of};
ghost use Rattle.op_msg.specs.declared.frame.FrameErr.{FrameErr};
ghost use Rattle.op_msg.specs.declared.frame.FrameErr.TheVariants as message;
ghost use Rattle.codec_laws.specs.First.{IsTold};
ghost use Rattle.codec_laws.specs.Faults.{IsThere, HasItsLength, HasOtherCode, IsLeastUnknown, IsFramed, IsSaid};

/// A document's fault is there: its place is one of the bytes, and of the byte there it says what
/// is so. Reading never tells out of memory.
pub fn faults_of_documents_are_there()
    ensures { (limit : ℕ) (bytes : List ℕ) (e : BsonErr) → document_of limit bytes ≡ Err e
        → IsThere limit bytes e }
{}

/// A fault is told of bytes exactly where it is their first: they are too few, their count is above
/// the limit or not theirs, or it stands first among the elements of the document, or of one that
/// it holds, after elements that are well formed.
pub fn the_first_fault_is_told(bytes: &[u8])
    ensures { (limit : ℕ) (e : BsonErr) → (document_of limit bytes.now ≡ Err e)
        ↔ IsTold limit bytes.now e }
{
    let _len = bytes.len();
}

/// A message's fault is what the bytes say. `Length`, `OpCode` and `Flags` come exactly where
/// theirs stand and none of those before does: first the length, then 400,000,000 bytes, then the
/// operation, then the flags. Reading never tells out of memory.
pub fn faults_of_messages_are_said()
    ensures said { (bytes : List ℕ) (e : FrameErr) → frame_of bytes ≡ Err e → IsSaid bytes e }
    ensures length { (bytes : List ℕ) → ¬ HasItsLength bytes → frame_of bytes ≡ Err message.Length }
    ensures too_large { (bytes : List ℕ) → HasItsLength bytes → most_internal < length bytes
        → frame_of bytes ≡ Err message.TooLarge }
    ensures op_code { (bytes : List ℕ) → IsFramed bytes → HasOtherCode bytes
        → frame_of bytes ≡ Err message.OpCode }
    ensures flags { (bit : ℕ) (bytes : List ℕ) → IsFramed bytes → IsLeastUnknown bit bytes
        → frame_of bytes ≡ Err (message.Flags bit) }
{}
