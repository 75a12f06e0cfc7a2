ghost use Rattle.std.specs.Prelude.{◌≡◌};
ghost use Rattle.op_msg.specs.Errors.{Gives};
ghost use Rattle.op_msg.specs.Reading.{header_number, header_at};

use crate::frame::FrameErr;
use bson_core::front_u32;

/// The numbers at the front of a message.
#[derive(Clone, Copy)]
pub struct Header {
    /// The number of all bytes of the message.
    pub len: u32,
    pub request_id: u32,
    pub response_to: u32,
    pub op_code: u32,
}

fn read_number(bytes: &[u8]) -> Result<(u32, &[u8]), FrameErr>
    ensures { Gives (λ x. (x.0, x.1.now)) result (header_number bytes.now) }
{
    match front_u32(bytes) {
        Some(found) => Ok(found),
        None => Err(FrameErr::Length),
    }
}

/// The header, and the bytes after it.
#[tactic(auto, unfolding(crate::specs::Reading::header_at))]
pub fn read_header(bytes: &[u8]) -> Result<(Header, &[u8]), FrameErr>
    ensures { Gives (λ x. (x.0, x.1.now)) result (header_at bytes.now) }
{
    let (len, rest) = read_number(bytes)?;
    let (request_id, rest) = read_number(rest)?;
    let (response_to, rest) = read_number(rest)?;
    let (op_code, rest) = read_number(rest)?;
    let header = Header {
        len,
        request_id,
        response_to,
        op_code,
    };
    Ok((header, rest))
}
