//! What a shard that isn't stopped does with a message to a coordinator, and with one that looks
//! for a decision.
ghost use Rattle.std.specs.Prelude.{◌≡◌, ◌<◌, [], true, Some, None, IfOk, IfSome, IsSomeAnd, OnOk, OnErr, if◌then◌else◌};
ghost use Rattle.txn_types.specs.Letters.{all_sent_by};
ghost use Rattle.txn_types.specs.declared.node.NodeId.TheVariants as node;
ghost use Rattle.session_table.specs.declared.session.Session.{Session};
ghost use Rattle.session_table.specs.declared.session.SessionState.TheVariants as state;
ghost use Rattle.coordinator.specs.TwoPhase.{coordinated_of, with_coordinated, with_asker, undecided, prepares, resends};
ghost use Rattle.participant.specs.Memory.{may_tell_memory};
ghost use Rattle.participant.specs.Part.{session};
ghost use Rattle.shard_core.specs.Coordinating.{told_of, tells, larger_number, unless_coordinated, unless_known, is_lost, fails, plan_of, starts, starts_own, starts_new, on_commit_two, recovers, on_recover, on_acked};
ghost use Rattle.shard_core.specs.Ruled.{Ruled};
ghost use Rattle.shard_core.specs.Rules.{router_of};
ghost use Rattle.shard_core.specs.State.{with_coord};
ghost use Rattle.shard_core.specs.Told.{given_by, Gives};

use crate::given::{Given, Slip, outcome};
use crate::shard::Shard;
use coordinator::{Plan, prepares};
use journal_rec::Rec;
use participant::PartErr;
use session_table::{SessionState, is_same_tag};
use sqlite_items::Items;
use std::alloc::{AllocError, Global};
use txn_types::{
    Acked, Cause, CommitTwo, Decision, Envelope, Envelopes, Lsid, NodeId, Recover, Tag, Told, Ts,
};

/// What is told of a decision.
pub fn told_of(decision: &Decision) -> Told
    ensures { result ≡ told_of decision.now }
{
    match decision {
        Decision::Commit(at) => Told::Committed { at: *at },
        Decision::Abort { shard, code } => Told::Aborted {
            cause: Cause::Voted {
                shard: *shard,
                code: *code,
            },
        },
    }
}

/// The number of a router of a cluster, which has at most eight.
pub fn router_of(from: &NodeId) -> Option<u16>
    ensures number { result ≡ router_of from.now }
    ensures most { IfSome result (λ router. router < 8) }
{
    match from {
        NodeId::Router(router) => { if *router < 8 { Some(*router) } else { None } }
        NodeId::Shard(_) => None,
    }
}

/// The plan of a commit that a router asks for.
fn plan_of(alloc: Global, m: &CommitTwo) -> Result<Plan, AllocError>
    ensures { IfOk result (λ plan. plan ≡ plan_of m.now) }
{
    match m.parts.copy(alloc) {
        Ok(parts) => Ok(Plan {
            lsid: m.lsid,
            number: m.number,
            parts,
        }),
        Err(AllocError) => Err(AllocError),
    }
}

impl Shard {
    /// A router is told how a transaction ended.
    fn tells(&self, slip: Slip, router: u16, tag: Tag, told: Told) -> Given
        ensures { result ≡ given_by (tells self.now router tag told) }
    {
        let (shard, boot) = (self.part.shard(), self.part.boot());
        let msg = outcome(tag, shard, boot, told);
        Given::sends(slip.send(shard, self.clock.last, NodeId::Router(router), msg))
    }

    /// The session's number, where it is above this one.
    fn larger_number(&self, lsid: &Lsid, number: i64) -> Option<i64>
        ensures { result ≡ larger_number (session self.now.part lsid.now) number }
    {
        match self.part.session(lsid) {
            Some(session) => {
                if number < session.number {
                    Some(session.number)
                } else {
                    None
                }
            }
            None => None,
        }
    }

    /// Where the tag is coordinated here, the router is told the decision, or waits for it; else
    /// the slip comes back.
    fn unless_coordinated(&mut self, slip: Slip, router: u16, tag: Tag) -> Result<Given, Slip>
        requires { router < 8 }
        ensures ok { IfOk result (λ g. (other : Ruled) → Gives (unless_coordinated self.old router
            tag (coordinated_of self.old.coord tag) other) self.new g) }
        ensures new { OnErr result (coordinated_of self.old.coord tag ≡ None) }
        ensures err { OnErr result (self.new ≡ self.old) }
    {
        match self.coord.ask(tag, router) {
            Ok(None) => Ok(Given::quiet(self.alloc)),
            Ok(Some(decision)) => Ok(self.tells(slip, router, tag, told_of(&decision))),
            Err(_) => Err(slip),
        }
    }

    /// Where the session has a larger number, or the tag is coordinated here, that is told; else
    /// the slip comes back.
    fn unless_known(
        &mut self,
        slip: Slip,
        router: u16,
        tag: Tag,
        lsid: &Lsid,
        number: i64,
    ) -> Result<Given, Slip>
        requires { router < 8 }
        ensures ok { IfOk result (λ g. (other : Ruled) → Gives (unless_known self.old router tag
            (session self.old.part lsid.now) number other) self.new g) }
        ensures newest { OnErr result
            (larger_number (session self.old.part lsid.now) number ≡ None) }
        ensures new { OnErr result (coordinated_of self.old.coord tag ≡ None) }
        ensures err { OnErr result (self.new ≡ self.old) }
    {
        match self.larger_number(lsid, number) {
            Some(have) => Ok(self.tells(slip, router, tag, Told::TooOld { have })),
            None => self.unless_coordinated(slip, router, tag),
        }
    }

    /// The transaction isn't here, or the shard was started again since.
    fn is_lost(&self, slip: Slip, router: u16, m: &CommitTwo) -> Given
        ensures { result ≡ given_by (is_lost self.now router m.now) }
    {
        let carried = m.boot;
        let have = self.part.boot();
        let cause = Cause::Unavailable { carried, have };
        self.tells(slip, router, m.tag, Told::Aborted { cause })
    }

    /// A live transaction of another boot is ended, and that is told.
    fn fails(&mut self, slip: Slip, router: u16, m: &CommitTwo) -> Given
        requires { IsSomeAnd (session self.old.part m.now.lsid) (λ s. s.state ≡ state.Live) }
        ensures { (own : Session) → session self.old.part m.now.lsid ≡ Some own
            → Gives (fails self.old router m.now own
            (Cause.Unavailable m.now.boot self.old.part.boot)) self.new result }
    {
        let carried = m.boot;
        let have = self.part.boot();
        self.part
            .end_live(&m.lsid, Cause::Unavailable { carried, have });
        let cause = Cause::Unavailable { carried, have };
        self.tells(slip, router, m.tag, Told::Aborted { cause })
    }

    /// The transaction is coordinated from now on, and the router waits for the decision.
    fn begin(&mut self, router: u16, m: &CommitTwo) -> Result<(), AllocError>
        requires router { router < 8 }
        requires new { coordinated_of self.old.coord m.now.tag ≡ None }
        ensures ok { OnOk result (self.new ≡ with_coord self.old (with_coordinated m.now.tag
            (with_asker router (undecided (plan_of m.now))) self.old.coord)) }
        ensures err { OnErr result (self.new ≡ self.old) }
    {
        let parts = m.parts.as_slice();
        match self.coord.start(m.tag, m.lsid, m.number, parts) {
            Ok(()) => {
                let _decision = self.coord.ask(m.tag, router);
                Ok(())
            }
            Err(_) => Err(AllocError),
        }
    }

    /// What asks the participants to prepare.
    fn asks_to_prepare(&self, m: &CommitTwo, plan: &Plan) -> Result<Envelopes, AllocError>
        requires { plan.now ≡ plan_of m.now }
        ensures { IfOk result (λ out. out ≡ all_sent_by (node.Shard self.now.part.shard)
            self.now.clock.last (prepares self.now.part.shard m.now.tag (plan_of m.now))) }
    {
        let (shard, parts) = (self.part.shard(), m.parts.as_slice());
        match prepares(self.alloc, shard, self.clock.last, m.tag, plan, parts) {
            Ok(out) => Ok(Items::from_vec(out)),
            Err(AllocError) => Err(AllocError),
        }
    }

    /// The commit begins: the participants are asked to prepare, this shard among them.
    fn starts(&mut self, router: u16, m: &CommitTwo) -> Result<Given, PartErr>
        requires router { router < 8 }
        requires new { coordinated_of self.old.coord m.now.tag ≡ None }
        ensures ok { IfOk result (λ g. Gives (starts self.old router m.now) self.new g) }
        ensures err { OnErr result (self.new ≡ self.old) }
    {
        let plan = plan_of(self.alloc, m)?;
        let out = self.asks_to_prepare(m, &plan)?;
        self.begin(router, m)?;
        let Plan {
            lsid,
            number,
            parts,
        } = plan;
        let rec = Rec::CoordStart {
            tag: m.tag,
            lsid,
            number,
            parts,
        };
        Ok(Given {
            rec: Some(rec),
            out,
            held: None,
        })
    }

    /// A live transaction of the boot that the router knows.
    fn starts_live(&mut self, slip: Slip, router: u16, m: &CommitTwo) -> Result<Given, PartErr>
        requires router { router < 8 }
        requires new { coordinated_of self.old.coord m.now.tag ≡ None }
        requires live { IsSomeAnd (session self.old.part m.now.lsid) (λ s. s.state ≡ state.Live) }
        ensures ok { IfOk result (λ g. (own : Session) → session self.old.part m.now.lsid ≡ Some own
            → Gives (starts_own self.old router m.now own state.Live) self.new g) }
        ensures err { OnErr result (self.new ≡ self.old) }
    {
        if m.boot == self.part.boot() {
            return self.starts(router, m);
        }
        Ok(self.fails(slip, router, m))
    }

    /// The commit of a transaction that isn't coordinated here.
    fn starts_new(&mut self, slip: Slip, router: u16, m: &CommitTwo) -> Result<Given, PartErr>
        requires router { router < 8 }
        requires newest { larger_number (session self.old.part m.now.lsid) m.now.number ≡ None }
        requires new { coordinated_of self.old.coord m.now.tag ≡ None }
        ensures ok { IfOk result (λ g. Gives
            (starts_new self.old router m.now (session self.old.part m.now.lsid)) self.new g) }
        ensures err { OnErr result (self.new ≡ self.old) }
        ensures memory { OnErr result
            (may_tell_memory self.old.part m.now.lsid m.now.number m.now.tag ≡ true) }
    {
        let Some(own) = self.part.session(&m.lsid) else {
            return Ok(self.is_lost(slip, router, m));
        };
        if !is_same_tag(&own.tag, &m.tag) {
            return Ok(self.is_lost(slip, router, m));
        }
        match &own.state {
            SessionState::Live => self.starts_live(slip, router, m),
            SessionState::Prepared { .. } => Ok(Given::quiet(self.alloc)),
            SessionState::Committed { at } => {
                let told = Told::Committed { at: *at };
                Ok(self.tells(slip, router, m.tag, told))
            }
            SessionState::Released => Ok(Given::quiet(self.alloc)),
            SessionState::Aborted { cause, .. } => match cause.copy(self.alloc) {
                Ok(cause) => Ok(self.tells(slip, router, m.tag, Told::Aborted { cause })),
                Err(AllocError) => Err(PartErr::Memory),
            },
        }
    }

    /// A router asks this shard, the first participant that wrote, to coordinate the commit.
    pub(crate) fn on_commit_two(
        &mut self,
        slip: Slip,
        router: u16,
        m: &CommitTwo,
    ) -> Result<Given, PartErr>
        requires { router < 8 }
        ensures ok { IfOk result (λ g. Gives (on_commit_two self.old router m.now) self.new g) }
        ensures err { OnErr result (self.new ≡ self.old) }
        ensures memory { OnErr result
            (may_tell_memory self.old.part m.now.lsid m.now.number m.now.tag ≡ true) }
        ensures new { OnErr result (coordinated_of self.old.coord m.now.tag ≡ None) }
    {
        match self.unless_known(slip, router, m.tag, &m.lsid, m.number) {
            Ok(given) => Ok(given),
            Err(slip) => self.starts_new(slip, router, m),
        }
    }

    /// What a participant tells of a transaction's end.
    fn recovers(&mut self, slip: Slip, router: u16, m: &Recover) -> Result<Given, PartErr>
        ensures ok { IfOk result (λ g. Gives (recovers self.old router m.now) self.new g) }
        ensures err { OnErr result (self.new ≡ self.old) }
        ensures memory { OnErr result
            (may_tell_memory self.old.part m.now.lsid m.now.number m.now.tag ≡ true) }
    {
        match self.part.recover(m) {
            Ok(told) => Ok(self.tells(slip, router, m.tag, told)),
            Err(PartErr::Memory) => Err(PartErr::Memory),
        }
    }

    /// A router asks how a transaction ended.
    pub(crate) fn on_recover(
        &mut self,
        slip: Slip,
        router: u16,
        m: &Recover,
    ) -> Result<Given, PartErr>
        requires { router < 8 }
        ensures ok { IfOk result (λ g. Gives (on_recover self.old router m.now) self.new g) }
        ensures err { OnErr result (self.new ≡ self.old) }
        ensures memory { OnErr result
            (may_tell_memory self.old.part m.now.lsid m.now.number m.now.tag ≡ true) }
        ensures new { OnErr result (coordinated_of self.old.coord m.now.tag ≡ None) }
    {
        match self.unless_known(slip, router, m.tag, &m.lsid, m.number) {
            Ok(given) => Ok(given),
            Err(slip) => self.recovers(slip, router, m),
        }
    }

    /// A participant has the decision; the last acknowledgement ends the coordination. It takes no
    /// memory.
    pub(crate) fn on_acked(&mut self, m: &Acked) -> Given
        ensures { Gives (on_acked self.old m.now) self.new result }
    {
        match self.coord.acked(m.tag, m.shard) {
            Ok(true) => Given {
                rec: Some(Rec::CoordEnd { tag: m.tag }),
                out: Items::new(self.alloc),
                held: None,
            },
            Ok(false) => Given::quiet(self.alloc),
            Err(_) => Given::quiet(self.alloc),
        }
    }

    /// What is waited for, asked again at this time. It changes nothing.
    pub(crate) fn resends(&self, time: Ts) -> Result<Envelopes, PartErr>
        ensures { IfOk result (λ out. out ≡ all_sent_by (node.Shard self.now.part.shard) time
            (resends self.now.part.shard self.now.coord)) }
    {
        let mut out: Vec<Envelope> = Vec::new(self.alloc);
        match self.coord.resend(self.part.shard(), time, &mut out) {
            Ok(()) => Ok(Items::from_vec(out)),
            Err(_) => Err(PartErr::Memory),
        }
    }
}
