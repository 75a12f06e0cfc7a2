//! A law is the contract of a function with an empty body.
ghost use Rattle.std.specs.Prelude.{◌≡◌, List, ℕ, true, false};
ghost use Rattle.op_msg.specs.Message.{message};
ghost use Rattle.op_msg.specs.declared.frame.Frame.{Frame};
ghost use Rattle.codec_laws.specs.Messages.{SpellsCurrent, SpellsReply};

/// A message has one spelling at most in each form, which is `message`.
pub fn a_message_has_one_spelling()
    ensures current { (f : Frame) (bytes : List ℕ) → f.legacy ≡ false → SpellsCurrent f bytes
        → bytes ≡ message f }
    ensures reply { (f : Frame) (bytes : List ℕ) → f.legacy ≡ true → SpellsReply f bytes
        → bytes ≡ message f }
{}
