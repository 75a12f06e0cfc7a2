//! A law is the contract of a function with an empty body.
ghost use Rattle.std.specs.Prelude.{◌≡◌, ◌≤◌, List, length, Ok};
ghost use Rattle.op_msg.specs.Message.{message};
ghost use Rattle.txn_types.specs.declared.message.Envelope.{Envelope};
ghost use Rattle.node_wire.specs.Errors.{most};
ghost use Rattle.node_wire.specs.Reading.{envelope_in, batch_in};
ghost use Rattle.node_wire.specs.Spelling.{envelope_frame, batch_frame};
ghost use Rattle.node_laws.specs.Fits.{EnvelopeFits, BatchedFits, ListFits};

/// What is written of an envelope is read as itself, where each field fits its bytes, each document
/// has at most 100 levels and each filter at most 200.
pub fn what_is_written_is_read()
    ensures envelope { (e : Envelope) → EnvelopeFits e → envelope_in (envelope_frame e) ≡ Ok e }
    ensures batch { (es : List Envelope) → ListFits BatchedFits es
        → batch_in (batch_frame es) ≡ Ok es }
{}

/// Bytes are the message of one envelope, or of one batch, at most.
pub fn messages_are_told_apart()
    ensures envelopes { (a b : Envelope) → EnvelopeFits a → EnvelopeFits b
        → length (message (envelope_frame a)) ≤ most → length (message (envelope_frame b)) ≤ most
        → message (envelope_frame a) ≡ message (envelope_frame b) → a ≡ b }
    ensures batches { (a b : List Envelope) → ListFits BatchedFits a → ListFits BatchedFits b
        → length (message (batch_frame a)) ≤ most → length (message (batch_frame b)) ≤ most
        → message (batch_frame a) ≡ message (batch_frame b) → a ≡ b }
{}
