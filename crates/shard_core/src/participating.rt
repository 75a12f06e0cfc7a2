//! What a shard that isn't stopped does with a message to a participant.
ghost use Rattle.std.specs.Prelude.{◌≡◌, ◌⊎◌, ◌≤◌, true, IfOk, OnErr};
ghost use Rattle.txn_types.specs.Clock.{next_time, last_time};
ghost use Rattle.participant.specs.Memory.{may_tell_memory};
ghost use Rattle.shard_core.specs.Participating.{on_commit, on_abort, on_prepare, on_decide, decided_record};
ghost use Rattle.shard_core.specs.Ruled.{coordinates};
ghost use Rattle.shard_core.specs.Told.{Gives};

use crate::given::{Given, Slip, outcome};
use crate::shard::Shard;
use journal_rec::{Decided, Rec};
use participant::{Done, PartErr, Voted};
use sqlite_items::Items;
use txn_types::{Abort, Acked, Commit, Decide, Msg, NodeId, Prepare, Tag, Vote};

/// The record of a decision, where there is one.
fn decided_record(decided: Option<Decided>) -> Option<Rec>
    ensures { result ≡ decided_record decided }
{
    match decided {
        Some(decided) => Some(Rec::Decided(decided)),
        None => None,
    }
}

impl Shard {
    /// The transaction is coordinated here.
    pub(crate) fn coordinates(&self, tag: Tag) -> bool
        ensures { result ≡ coordinates self.now tag }
    {
        self.coord.plan(tag).is_some()
    }

    /// A commit that the shard makes alone.
    pub(crate) fn on_commit(
        &mut self,
        slip: Slip,
        from: NodeId,
        m: &Commit,
    ) -> Result<Given, PartErr>
        requires clock { (self.old.clock.last ≡ last_time)
            ⊎ (next_time self.old.clock.last self.old.wall ≤ self.old.clock.ceiling) }
        ensures ok { IfOk result (λ g. Gives (on_commit self.old from m.now) self.new g) }
        ensures err { OnErr result (self.new ≡ self.old) }
        ensures memory { OnErr result
            (may_tell_memory self.old.part m.now.lsid m.now.number m.now.tag ≡ true) }
    {
        let (shard, boot, wall) = (self.part.shard(), self.part.boot(), self.wall);
        let Done { told, rec } = match self.part.commit(&mut self.clock, wall, m) {
            Ok(done) => done,
            Err(PartErr::Memory) => return Err(PartErr::Memory),
        };
        let out = match told {
            Some(told) => slip.send(
                self.part.shard(),
                self.clock.last,
                from,
                outcome(m.tag, shard, boot, told),
            ),
            None => Items::new(self.alloc),
        };
        Ok(Given {
            rec,
            out,
            held: None,
        })
    }

    /// An abort that is asked for; a transaction that is coordinated here isn't ended so. It takes
    /// no memory.
    pub(crate) fn on_abort(&mut self, m: &Abort) -> Given
        ensures { Gives (on_abort self.old m.now) self.new result }
    {
        if !self.coordinates(m.tag) {
            self.part.abort(m);
        }
        Given::quiet(self.alloc)
    }

    /// The coordinator asks for a vote.
    pub(crate) fn on_prepare(&mut self, slip: Slip, m: &Prepare) -> Result<Given, PartErr>
        requires clock { (self.old.clock.last ≡ last_time)
            ⊎ (next_time self.old.clock.last self.old.wall ≤ self.old.clock.ceiling) }
        ensures ok { IfOk result (λ g. Gives (on_prepare self.old m.now) self.new g) }
        ensures err { OnErr result (self.new ≡ self.old) }
        ensures memory { OnErr result
            (may_tell_memory self.old.part m.now.lsid m.now.number m.now.tag ≡ true) }
    {
        let (shard, wall, tag) = (self.part.shard(), self.wall, m.tag);
        let Voted { vote, rec } = match self.part.prepare(&mut self.clock, wall, m) {
            Ok(voted) => voted,
            Err(PartErr::Memory) => return Err(PartErr::Memory),
        };
        let out = match vote {
            Some(vote) => slip.send(
                self.part.shard(),
                self.clock.last,
                NodeId::Shard(m.coordinator),
                Msg::Vote(Vote { tag, shard, vote }),
            ),
            None => Items::new(self.alloc),
        };
        Ok(Given {
            rec,
            out,
            held: None,
        })
    }

    /// The coordinator tells its decision, which is acknowledged, whatever it changes. It takes no
    /// memory.
    pub(crate) fn on_decide(&mut self, slip: Slip, from: NodeId, m: &Decide) -> Given
        ensures { Gives (on_decide self.old from m.now) self.new result }
    {
        let (shard, tag) = (self.part.shard(), m.tag);
        let decided = self.part.decide(m);
        let acked = Msg::Acked(Acked { tag, shard });
        Given {
            rec: decided_record(decided),
            out: slip.send(self.part.shard(), self.clock.last, from, acked),
            held: None,
        }
    }
}
