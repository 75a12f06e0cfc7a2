//! What a shard that isn't stopped does with a statement.
ghost use Rattle.std.specs.Prelude.{◌≡◌, ◌⊎◌, ◌≤◌, [], ◌∷◌, true, false, IfOk, OnErr, if◌then◌else◌};
ghost use Rattle.txn_types.specs.Clock.{next_time, last_time};
ghost use Rattle.participant.specs.Memory.{may_tell_memory};
ghost use Rattle.participant.specs.Part.{elsewhere};
ghost use Rattle.shard_core.specs.Participating.{answer, answers, on_statement};
ghost use Rattle.shard_core.specs.Ruled.{sends};
ghost use Rattle.shard_core.specs.Told.{given_by, Gives};

use crate::given::{Given, Slip};
use crate::shard::Shard;
use participant::{PartErr, Said};
use sqlite_items::Items;
use txn_types::{Answer, Cause, Msg, NodeId, OpReply, Statement, Ts};

impl Shard {
    /// An answer to a statement.
    pub(crate) fn answer(
        &self,
        slip: Slip,
        to: NodeId,
        m: &Statement,
        read_at: Ts,
        outcome: Result<(OpReply, bool), Cause>,
    ) -> Given
        ensures { result
            ≡ given_by (sends self.now (answer self.now to m.now read_at outcome ∷ [])) }
    {
        let msg = Msg::Answer(Answer {
            tag: m.tag,
            k: m.k,
            shard: self.part.shard(),
            boot: self.part.boot(),
            read_at,
            outcome,
        });
        Given::sends(slip.send(self.part.shard(), self.clock.last, to, msg))
    }

    /// What is said is answered; a held statement and a late one aren't.
    fn answers(&self, slip: Slip, to: NodeId, m: &Statement, said: Said) -> Given
        ensures { result ≡ given_by (answers self.now to m.now said) }
    {
        match said {
            Said::Did {
                read_at,
                reply,
                wrote,
            } => self.answer(slip, to, m, read_at, Ok((reply, wrote))),
            Said::Blocked(held) => Given {
                rec: None,
                out: Items::new(self.alloc),
                held: Some(held),
            },
            Said::Refused { cause, read_at } => self.answer(slip, to, m, read_at, Err(cause)),
            Said::Late => Given::quiet(self.alloc),
        }
    }

    /// A statement. One of a tag that another session has open says nothing.
    pub(crate) fn on_statement(
        &mut self,
        slip: Slip,
        from: NodeId,
        m: &Statement,
    ) -> Result<Given, PartErr>
        requires clock { (self.old.clock.last ≡ last_time)
            ⊎ (next_time self.old.clock.last self.old.wall ≤ self.old.clock.ceiling) }
        requires time { m.now.read_at ≤ self.old.clock.last }
        ensures ok { IfOk result (λ g. Gives (on_statement self.old from m.now) self.new g) }
        ensures err { OnErr result (self.new ≡ self.old) }
        ensures memory { OnErr result
            (may_tell_memory self.old.part m.now.lsid m.now.number m.now.tag ≡ true) }
        ensures once { OnErr result (elsewhere self.old.part m.now.lsid m.now.tag ≡ false) }
    {
        if self.part.elsewhere(&m.lsid, m.tag) {
            return Ok(Given::quiet(self.alloc));
        }
        let wall = self.wall;
        match self.part.statement(&mut self.clock, wall, m) {
            Ok(said) => Ok(self.answers(slip, from, m, said)),
            Err(PartErr::Memory) => Err(PartErr::Memory),
        }
    }
}
