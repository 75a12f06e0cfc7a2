ghost use Rattle.std.specs.Prelude.{◌≡◌, ◌++◌, IfErr, OnOk};
ghost use Rattle.op_msg.specs.Words.{word};

use crate::frame::FrameErr;

/// Appends a number.
#[tactic(auto, unfolding(crate::specs::Words::word))]
pub fn put_word(out: &mut Vec<u8>, number: u32) -> Result<(), FrameErr>
    ensures ok { OnOk result (out.new.items ≡ out.old.items ++ word number) }
    ensures refused { IfErr result (λ e. e ≡ FrameErr.Memory) }
{
    out.extend_from_slice(&number.to_le_bytes())?;
    Ok(())
}
