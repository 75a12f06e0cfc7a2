//! Laws of the definitions: a law is the contract of a function that changes nothing and gives
//! nothing. Where facts that belong to the types of the parts are wanted, the function goes through
//! the parts.
ghost use Rattle.std.specs.Prelude.{◌≡◌, ◌++◌, List, ℕ, [], false, Ok, length, FitsSigned};
ghost use Rattle.std.specs.Int.{w32};
ghost use Rattle.std.specs.List.{All};
ghost use Rattle.op_msg.specs.Message.{message, IsMessage, IsWithinLimits};
ghost use Rattle.op_msg.specs.Reading.{frame_of};
ghost use Rattle.op_msg.specs.Written.{HasShallowDocuments, IsWritten, IsSequenceWritten};
ghost use Rattle.op_msg.specs.declared.frame.Frame.{Frame as AnyFrame};

use crate::frame::Frame;
use bson_core::{Doc, Name, spelling_is_in_the_grammar};
use sqlite_items::Items;

fn documents_are_written(docs: &[Doc])
    ensures { All IsWritten docs.now }
{
    for doc in docs {
        spelling_is_in_the_grammar(doc);
    }
}

fn sequences_are_written(seqs: &[(Name, Items<Doc>)])
    ensures { All IsSequenceWritten seqs.now }
{
    for (name, docs) in seqs {
        let _name = name.as_str();
        documents_are_written(docs.as_slice());
    }
}

/// The numbers of a header are int32.
fn numbers_fit(frame: &Frame)
    ensures request_id { FitsSigned w32 frame.now.request_id }
    ensures response_to { FitsSigned w32 frame.now.response_to }
{
    let _request_id = frame.request_id;
    let _response_to = frame.response_to;
}

/// What is written of a message is that message, where its documents have at most 100 levels and it
/// is within the limits.
pub fn written_frame_is_a_message(frame: &Frame)
    ensures { frame.now.legacy ≡ false → HasShallowDocuments frame.now
        → IsWithinLimits (length (message frame.now)) frame.now.body
        → IsMessage (message frame.now) frame.now }
{
    numbers_fit(frame);
    spelling_is_in_the_grammar(&frame.body);
    sequences_are_written(frame.seqs.as_slice());
}

/// What is written of a message is read as that message, where its documents have at most 100
/// levels and it is within the limits.
pub fn reading_undoes_writing(frame: &Frame)
    ensures { frame.now.legacy ≡ false → HasShallowDocuments frame.now
        → IsWithinLimits (length (message frame.now)) frame.now.body
        → frame_of (message frame.now) ≡ Ok frame.now }
{
    written_frame_is_a_message(frame);
}

/// Bytes are a message exactly where reading them meets no fault, and then it gives that message.
pub fn message_has_no_fault(bytes: &[u8])
    ensures read { (f : AnyFrame) → IsMessage bytes.now f → frame_of bytes.now ≡ Ok f }
    ensures found { (f : AnyFrame) → frame_of bytes.now ≡ Ok f → IsMessage bytes.now f }
{
    let _len = bytes.len();
}

/// Bytes are those of one message at most; and no message is a proper front of another, since each
/// begins with its length.
pub fn messages_are_told_apart()
    ensures one { (f g : AnyFrame) (bytes : List ℕ) → IsMessage bytes f
        → IsMessage bytes g → f ≡ g }
    ensures no_front { (f g : AnyFrame) (bytes rest : List ℕ) → IsMessage bytes f
        → IsMessage (bytes ++ rest) g → rest ≡ [] }
{}
