ghost use Rattle.std.specs.Prelude.{◌≡◌, IfOk};
ghost use Rattle.client_reply.specs.Replies.{FitsReply, reply_frame};

use crate::documents::answer;
use crate::fields::put_times;
use crate::reply::Reply;
use crate::tokens::{put_token, token_in};
use op_msg::Frame;
use sqlite_items::Items;
use std::alloc::{AllocError, Global};
use txn_types::Ts;

/// The message that tells the reply to the request of that number, in the older form of messages
/// where that was asked in it; and the cluster's time, unless it is 0.
#[tactic(auto, unfolding(crate::specs::Replies::reply_frame), using(crate::proofs::Messages::append_append))]
pub fn write_reply(
    alloc: Global,
    reply: &Reply,
    to: i32,
    legacy: bool,
    time: Ts,
) -> Result<Frame, AllocError>
    requires { FitsReply reply.now }
    ensures { IfOk result (λ f. f ≡ reply_frame reply.now to legacy time) }
{
    let mut fields = answer(alloc, reply)?;
    put_token(alloc, &mut fields, token_in(reply))?;
    put_times(alloc, &mut fields, time)?;
    Ok(Frame {
        request_id: 0,
        response_to: to,
        legacy,
        more: false,
        body: Items::from_vec(fields),
        seqs: Items::new(alloc),
    })
}
