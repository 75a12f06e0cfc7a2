//! Want of memory, where it is told as a cause.
ghost use Rattle.std.specs.Prelude.{◌≡◌, Err, if◌then◌else◌};
ghost use Rattle.txn_types.specs.declared.decision.Told.TheVariants as told;
ghost use Rattle.txn_types.specs.declared.node.NodeId.TheVariants as node;
ghost use Rattle.participant.specs.Memory.{ended_for_memory};
ghost use Rattle.shard_core.specs.Participating.{answer};
ghost use Rattle.shard_core.specs.Ruled.{outcome};
ghost use Rattle.shard_core.specs.State.{with_part};
ghost use Rattle.shard_core.specs.Told.{told_by, Gives};

use crate::given::{Given, Slip, outcome};
use crate::shard::Shard;
use session_table::{SessionState, is_same_tag};
use txn_types::{Answer, Cause, Lsid, Msg, NodeId, Prepare, Statement, Tag, Told, Ts, Vote};

impl Shard {
    /// Ends a live transaction of this tag.
    fn end_for_memory(&mut self, lsid: &Lsid, tag: &Tag)
        ensures { self.new ≡ with_part self.old (ended_for_memory self.old.part lsid.now tag.now) }
    {
        let Some(session) = self.part.session(lsid) else {
            return;
        };
        if !is_same_tag(&session.tag, tag) {
            return;
        }
        match session.state {
            SessionState::Live => self.part.end_live(lsid, Cause::Memory),
            SessionState::Prepared { .. } => {}
            SessionState::Committed { .. } => {}
            SessionState::Released => {}
            SessionState::Aborted { .. } => {}
        }
    }

    /// out of memory is told by this message, and a live transaction of the tag is ended.
    fn tell(&mut self, slip: Slip, lsid: &Lsid, tag: &Tag, to: NodeId, msg: Msg) -> Given
        ensures { Gives (told_by self.old lsid.now tag.now (to, msg)) self.new result }
    {
        self.end_for_memory(lsid, tag);
        Given::sends(slip.send(self.part.shard(), self.clock.last, to, msg))
    }

    /// It is told as the end of a transaction.
    pub(crate) fn tell_end(&mut self, slip: Slip, to: NodeId, lsid: &Lsid, tag: &Tag) -> Given
        ensures { Gives (told_by self.old lsid.now tag.now
            (outcome self.old tag.now (told.Aborted Cause.Memory) to)) self.new result }
    {
        let told = Told::Aborted {
            cause: Cause::Memory,
        };
        let msg = outcome(*tag, self.part.shard(), self.part.boot(), told);
        self.tell(slip, lsid, tag, to, msg)
    }

    /// It is told as an answer to a statement.
    pub(crate) fn tell_answer(&mut self, slip: Slip, to: NodeId, m: &Statement) -> Given
        ensures { Gives (told_by self.old m.now.lsid m.now.tag
            (answer self.old to m.now 0 (Err Cause.Memory))) self.new result }
    {
        let msg = Msg::Answer(Answer {
            tag: m.tag,
            k: m.k,
            shard: self.part.shard(),
            boot: self.part.boot(),
            read_at: Ts(0),
            outcome: Err(Cause::Memory),
        });
        self.tell(slip, &m.lsid, &m.tag, to, msg)
    }

    /// It is told as a vote.
    pub(crate) fn tell_vote(&mut self, slip: Slip, m: &Prepare) -> Given
        ensures { Gives (told_by self.old m.now.lsid m.now.tag (
          node.Shard m.now.coordinator,
          Msg.Vote
              (record { tag = m.now.tag; shard = self.old.part.shard; vote = Err Cause.Memory }),
        )) self.new result }
    {
        let msg = Msg::Vote(Vote {
            tag: m.tag,
            shard: self.part.shard(),
            vote: Err(Cause::Memory),
        });
        self.tell(slip, &m.lsid, &m.tag, NodeId::Shard(m.coordinator), msg)
    }
}
