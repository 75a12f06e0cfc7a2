//! What follows from what nodes answer.
ghost use Rattle.std.specs.Prelude.{◌≡◌, map, IfOk};

use crate::player::Player;
use crate::want::Given;
use bson_core::Bytes;
use play_text::{put_closed, put_held, put_reply, put_sent};
use std::alloc::{AllocError, Global};
use std::collections::VecDeque;
use txn_types::{Envelope, NodeAnswer};

impl<'a> Player<'a> {
    ghost use Rattle.std.specs.Prelude.{◌≡◌, ◌+◌, ◌++◌, ◌∷◌, [], flat_map, OnOk};
    ghost use Rattle.play_text.specs.Text.{reply_line, sent_line};
    ghost use Rattle.play_steps.specs.Taking.{sent_lines, where_logs, answered, all_answered, with_sent, serving_behind};
    ghost use Rattle.play_steps.specs.Steps.{closing_text, heard_of, answer_text, behind_answer, behind_did, message_done};

    /// Numbers a message that a step gave out; with `log` a line is written of it.
    fn took_one(&mut self, envelope: &Envelope, out: &mut Vec<u8>) -> Result<(), AllocError>
        ensures text { OnOk result (out.new.items
            ≡ out.old.items ++ where_logs self.old.logs (sent_line self.old.sent envelope.now)) }
        ensures player { OnOk result (self.new ≡ record self.old
            { sent = self.old.sent + 1; pending = self.old.pending ++ self.old.sent ∷ [] }) }
    {
        if self.logs {
            put_sent(self.alloc, out, self.sent, envelope)?;
        }
        self.pending.push(self.sent)?;
        match self.sent.checked_add(1) {
            Some(sent) => self.sent = sent,
            None => return Err(AllocError),
        }
        Ok(())
    }

    /// Numbers the messages that a step gave out; with `log` a line is written of each.
    fn took_sent(&mut self, sent: &[Envelope], out: &mut Vec<u8>) -> Result<(), AllocError>
        ensures text { OnOk result (out.new.items
            ≡ out.old.items ++ where_logs self.old.logs (sent_lines self.old.sent sent.now)) }
        ensures player { OnOk result (self.new ≡ with_sent self.old sent.now) }
    {
        for envelope in sent {
            self.took_one(envelope, out)?;
        }
        Ok(())
    }

    /// A connection that was replied to isn't waited for.
    fn answered(&mut self, conn: u32) -> Result<(), AllocError>
        ensures { OnOk result (self.new ≡ answered self.old conn) }
    {
        self.connections.answered(conn)
    }

    /// Writes replies; the connections aren't waited for.
    fn took_replies(
        &mut self,
        replies: &[(u32, Bytes)],
        out: &mut Vec<u8>,
    ) -> Result<(), AllocError>
        ensures text { OnOk result
            (out.new.items ≡ out.old.items ++ flat_map (λ r. reply_line r.0 r.1) replies.now) }
        ensures player { OnOk result (self.new ≡ all_answered self.old replies.now) }
    {
        for (conn, bytes) in replies {
            put_reply(self.alloc, out, *conn, bytes.as_slice())?;
            self.answered(*conn)?;
        }
        Ok(())
    }

    /// What was given was taken: a client's message may have closed its connection, or want no
    /// reply.
    fn heard(
        &mut self,
        given: Given,
        closed: Option<u8>,
        out: &mut Vec<u8>,
    ) -> Result<(), AllocError>
        ensures text { OnOk result (out.new.items ≡ out.old.items ++ closing_text given closed) }
        ensures player { OnOk result (self.new ≡ heard_of self.old given closed) }
    {
        let Given::Client { conn, wants_reply } = given else {
            return Ok(());
        };
        match closed {
            Some(number) => {
                put_closed(self.alloc, out, conn, number)?;
                self.shut(conn)
            }
            None => {
                if wants_reply {
                    Ok(())
                } else {
                    self.answered(conn)
                }
            }
        }
    }

    /// What waits on the connections that were replied to comes next.
    fn serve_first(&mut self, replies: &[(u32, Bytes)]) -> Result<(), AllocError>
        ensures { OnOk result (self.new ≡ serving_behind self.old replies.now) }
    {
        let mut serving = replied_to(self.alloc, replies)?;
        serving.append(&mut self.serving)?;
        self.serving = serving;
        Ok(())
    }

    /// What was given to a node is done, unless it was held.
    fn finish(&mut self, given: Given)
        ensures { self.new ≡ message_done self.old given }
    {
        let Given::Message { number } = given else {
            return;
        };
        self.done(number);
        if let Some(round) = &mut self.round {
            round.make_progress();
        }
    }

    /// What a node did: what is written of it, and what follows.
    fn took_did(
        &mut self,
        given: Given,
        sent: &[Envelope],
        replies: &[(u32, Bytes)],
        closed: Option<u8>,
        out: &mut Vec<u8>,
    ) -> Result<(), AllocError>
        ensures text { OnOk result (out.new.items
            ≡ out.old.items ++ (where_logs self.old.logs (sent_lines self.old.sent sent.now)
            ++ flat_map (λ r. reply_line r.0 r.1) replies.now ++ closing_text given closed)) }
        ensures player { OnOk result
            (self.new ≡ behind_did self.old given sent.now replies.now closed) }
    {
        self.took_sent(sent, out)?;
        self.took_replies(replies, out)?;
        self.heard(given, closed, out)?;
        self.serve_first(replies)
    }

    /// What a node answered: what is written of it is put after `out`, and what follows.
    pub fn took(
        &mut self,
        given: Given,
        answer: &NodeAnswer,
        out: &mut Vec<u8>,
    ) -> Result<(), AllocError>
        ensures text { OnOk result
            (out.new.items ≡ out.old.items ++ answer_text self.old given answer.now) }
        ensures player { OnOk result (self.new ≡ behind_answer self.old given answer.now) }
    {
        match answer {
            NodeAnswer::Did {
                out: sent,
                replies,
                closed,
            } => {
                self.took_did(given, sent.as_slice(), replies.as_slice(), *closed, out)?;
                self.finish(given);
            }
            NodeAnswer::Blocked { tag, ts, .. } => {
                if let Given::Message { number } = given {
                    if self.logs {
                        put_held(self.alloc, out, number, *tag, *ts)?;
                    }
                }
            }
            _ => self.finish(given),
        }
        Ok(())
    }
}

/// The connections that were replied to.
fn replied_to(alloc: Global, replies: &[(u32, Bytes)]) -> Result<VecDeque<u32>, AllocError>
    ensures { IfOk result (λ conns. conns.items ≡ map (λ r. r.0) replies.now) }
{
    let mut conns = VecDeque::new(alloc);
    for (conn, _) in replies {
        conns.push_back(*conn)?;
    }
    Ok(conns)
}
