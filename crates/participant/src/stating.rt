ghost use Rattle.std.specs.Prelude.{◌≡◌, ◌≤◌, ◌⊎◌, nat_eq, nat_lt, Some, None, Ok, true, false, option_map, IfOk, IfErr, IfSome, IsSomeAnd, OnOk, OnErr};
ghost use Rattle.std.specs.Option.{option_copied};
ghost use Rattle.txn_types.specs.Clock.{last_time, next_time};
ghost use Rattle.txn_types.specs.Order.{same_tag};
ghost use Rattle.txn_types.specs.Writes.{AllHaveOwnIds};
ghost use Rattle.txn_semantics.specs.Meaning.{ns_of};
ghost use Rattle.txn_semantics.specs.Touched.{touched};
ghost use Rattle.txn_semantics.specs.Writes.{place_of};
ghost use Rattle.session_table.specs.declared.session.Session.{Session};
ghost use Rattle.session_table.specs.declared.session.SessionState.TheVariants as state;
ghost use Rattle.version_store.specs.Versions.{scan, versions_of, against, conflict};
ghost use Rattle.version_store.specs.Refusals.{IsHeld};
ghost use Rattle.version_store.specs.TakenBack.{AreFree};
ghost use Rattle.participant.specs.declared.said.Said.TheVariants as said;
ghost use Rattle.participant.specs.Memory.{may_tell_memory};
ghost use Rattle.participant.specs.Part.{session, open_of, elsewhere};
ghost use Rattle.participant.specs.Statement.{
  statement,
  first_statement,
  beside,
  begins,
  read_time,
  goes_on,
  performed,
  writing,
  within_volume,
  refuses,
  opened,
  begun_of,
  writes_with,
  wrote,
  with_open,
  made_room,
};
ghost use Rattle.participant.specs.Stands.{CanLeave, IsNext, meant, mine};

use crate::lives::Live;
use crate::merging::keys_of;
use crate::part::Participant;
use crate::preparing::is_replaced;
use crate::putting::{drop_live, put_all};
use crate::said::{Meant, Open, PartErr, Said};
use crate::touching::{namespace, touched};
use bson_core::Doc;
use journal_rec::volume;
use query_eval::{EvalErr, eval};
use session_table::{Session, SessionState, is_same_tag};
use std::alloc::AllocError;
use txn_types::{By, Cause, HybridClock, Id, OpReply, Statement, Ts, Write, Writes};
use version_store::ScanErr;
use write_sets::merged;

/// A transaction's writes on one shard have at most so many bytes.
const MOST_BYTES: u64 = 100_000_000;

/// Refused, and nothing changes.
fn refused(cause: Cause) -> Said
    ensures { result ≡ said.Refused cause 0 }
{
    Said::Refused {
        cause,
        read_at: Ts(0),
    }
}

/// Whether there is a write.
fn wrote(writes: &Writes) -> bool
    ensures { result ≡ wrote writes.now }
{
    !writes.as_slice().is_empty()
}

/// Its transaction's read timestamp, at a first statement: where it names none, the clock.
fn read_time(last: Ts, m: &Statement) -> Ts
    ensures { result ≡ read_time last m.now }
{
    if m.read_at.0 == 0 { last } else { m.read_at }
}

/// Whether the newest statement comes again, which has this place.
fn is_again(m: &Statement, k: u32) -> bool
    ensures { result ≡ nat_eq m.now.k k }
{
    m.k == k
}

/// Whether the statement comes after one of a higher place, this one.
fn is_late(m: &Statement, k: u32) -> bool
    ensures { result ≡ nat_lt m.now.k k }
{
    m.k < k
}

/// Whether the statement's boot is this one.
fn is_here(m: &Statement, boot: u32) -> bool
    ensures { result ≡ nat_eq m.now.boot boot }
{
    m.boot == boot
}

/// The session, where its transaction is the statement's and aborted.
fn aborted_session(m: &Statement, cause: Cause, read_at: Ts) -> Session
    ensures { result
        ≡ record { number = m.now.number; tag = m.now.tag; state = state.Aborted cause read_at } }
{
    Session {
        number: m.number,
        tag: m.tag,
        state: SessionState::Aborted { cause, read_at },
    }
}

impl Participant {
    /// Answers a statement of a transaction; its writes stand here until the transaction ends. The
    /// clock stays.
    #[tactic(auto, unfolding(crate::specs::Statement::statement))]
    pub fn statement(
        &mut self,
        clock: &mut HybridClock,
        wall: u32,
        m: &Statement,
    ) -> Result<Said, PartErr>
        requires clock { (clock.old.last ≡ last_time)
            ⊎ (next_time clock.old.last wall ≤ clock.old.ceiling) }
        requires time { m.now.read_at ≤ clock.old.last }
        requires once { elsewhere self.old m.now.lsid m.now.tag ≡ false }
        ensures said { IfOk result
            (λ said. statement self.old clock.old.last wall m.now ≡ (said, self.new)) }
        ensures clock { clock.new ≡ clock.old }
        ensures err { OnErr result (self.new ≡ self.old) }
        ensures memory { OnErr result
            (may_tell_memory self.old m.now.lsid m.now.number m.now.tag ≡ true) }
    {
        let last = clock.last;
        let Some(session) = self.session(&m.lsid) else {
            return self.first_statement(last, wall, m);
        };
        if is_replaced(session, m.number, &m.tag) {
            return Ok(refused(Cause::Replaced {
                number: session.number,
                tag: session.tag,
            }));
        }
        if !is_same_tag(&session.tag, &m.tag) {
            return self.first_statement(last, wall, m);
        }
        match &session.state {
            SessionState::Live => self.goes_on(wall, m),
            SessionState::Prepared { .. } => Ok(Said::Late),
            SessionState::Committed { .. } => Ok(Said::Late),
            SessionState::Released => Ok(Said::Late),
            SessionState::Aborted { cause, read_at } => Ok(Said::Refused {
                cause: cause.copy(self.alloc)?,
                read_at: *read_at,
            }),
        }
    }

    /// A statement with a tag that is new to the session.
    fn first_statement(&mut self, last: Ts, wall: u32, m: &Statement) -> Result<Said, PartErr>
        requires once { elsewhere self.old m.now.lsid m.now.tag ≡ false }
        requires other { IfSome (session self.old m.now.lsid)
            (λ s. same_tag s.tag m.now.tag ≡ false) }
        ensures said { IfOk result (λ said. first_statement self.old last wall m.now
            (session self.old m.now.lsid) ≡ (said, self.new)) }
        ensures err { OnErr result (self.new ≡ self.old) }
    {
        if is_here(m, 0) {
            return self.beside(last, wall, m);
        }
        Ok(refused(Cause::Unavailable {
            carried: m.boot,
            have: self.boot,
        }))
    }

    /// A statement with a tag that is new to the session, and without a boot.
    fn beside(&mut self, last: Ts, wall: u32, m: &Statement) -> Result<Said, PartErr>
        requires once { elsewhere self.old m.now.lsid m.now.tag ≡ false }
        requires other { IfSome (session self.old m.now.lsid)
            (λ s. same_tag s.tag m.now.tag ≡ false) }
        ensures said { IfOk result (λ said. beside self.old last wall m.now
            (session self.old m.now.lsid) ≡ (said, self.new)) }
        ensures err { OnErr result (self.new ≡ self.old) }
    {
        let Some(session) = self.session(&m.lsid) else {
            if self.sessions.is_full() {
                return Ok(refused(Cause::TooManySessions));
            }
            return self.begin(last, wall, m);
        };
        match &session.state {
            SessionState::Live => self.begin(last, wall, m),
            SessionState::Prepared { .. } => {
                Ok(refused(Cause::PreparedStands { tag: session.tag }))
            }
            SessionState::Committed { .. } => self.begin(last, wall, m),
            SessionState::Released => self.begin(last, wall, m),
            SessionState::Aborted { .. } => self.begin(last, wall, m),
        }
    }

    /// The first statement of a transaction.
    fn begin(&mut self, last: Ts, wall: u32, m: &Statement) -> Result<Said, PartErr>
        requires once { elsewhere self.old m.now.lsid m.now.tag ≡ false }
        requires other { IfSome (session self.old m.now.lsid)
            (λ s. same_tag s.tag m.now.tag ≡ false) }
        requires left { CanLeave (session self.old m.now.lsid) }
        ensures said { IfOk result (λ said. begins self.old last wall m.now ≡ (said, self.new)) }
        ensures err { OnErr result (self.new ≡ self.old) }
    {
        let _count = self.live.len();
        self.perform(wall, m, read_time(last, m))
    }

    /// A statement of the session's live transaction.
    fn goes_on(&mut self, wall: u32, m: &Statement) -> Result<Said, PartErr>
        requires once { elsewhere self.old m.now.lsid m.now.tag ≡ false }
        requires live { IsSomeAnd (session self.old m.now.lsid) (λ s. s.state ≡ state.Live) }
        requires own { IfSome (session self.old m.now.lsid) (λ s. same_tag s.tag m.now.tag ≡ true) }
        ensures said { IfOk result (λ said. (s : Session) → session self.old m.now.lsid ≡ Some s
            → goes_on self.old wall m.now s (open_of self.old m.now.lsid) ≡ (said, self.new)) }
        ensures err { OnErr result (self.new ≡ self.old) }
    {
        let Some(live) = self.live.get(&m.lsid) else {
            return Ok(Said::Late);
        };
        let entry = live.open();
        if is_again(m, entry.k) {
            return Ok(Said::Did {
                read_at: entry.read_at,
                reply: entry.reply.copy(self.alloc)?,
                wrote: entry.wrote,
            });
        }
        if is_late(m, entry.k) {
            return Ok(Said::Late);
        }
        let read_at = entry.read_at;
        self.goes_further(wall, m, read_at)
    }

    /// The next statement of the session's live transaction.
    fn goes_further(&mut self, wall: u32, m: &Statement, read_at: Ts) -> Result<Said, PartErr>
        requires once { elsewhere self.old m.now.lsid m.now.tag ≡ false }
        requires live { IsSomeAnd (session self.old m.now.lsid) (λ s. s.state ≡ state.Live) }
        requires own { IfSome (session self.old m.now.lsid) (λ s. same_tag s.tag m.now.tag ≡ true) }
        requires next { IsSomeAnd (open_of self.old m.now.lsid) (IsNext m.now read_at) }
        ensures said { IfOk result (λ said. (s : Session) → session self.old m.now.lsid ≡ Some s
            → goes_on self.old wall m.now s (open_of self.old m.now.lsid) ≡ (said, self.new)) }
        ensures err { OnErr result (self.new ≡ self.old) }
    {
        let _count = self.live.len();
        if is_here(m, self.boot) {
            return self.perform(wall, m, read_at);
        }
        let (carried, have) = (m.boot, self.boot);
        self.end_live(&m.lsid, Cause::Unavailable { carried, have });
        Ok(refused(Cause::Unavailable { carried, have }))
    }

    /// What the transaction of the statement has here already.
    fn mine(&self, m: &Statement) -> Option<&Open>
        ensures { option_copied result ≡ mine self.now m.now }
    {
        match self.live.get(&m.lsid) {
            Some(live) => {
                if is_same_tag(&live.tag(), &m.tag) {
                    Some(live.open())
                } else {
                    None
                }
            }
            None => None,
        }
    }

    /// What the transaction sees of what the operation touches.
    fn rows(&self, m: &Statement, read_at: Ts) -> Result<Vec<(Id, Doc)>, ScanErr>
        ensures rows { IfOk result (λ rows. scan self.now.store (ns_of m.now.op) (touched m.now.op)
            read_at m.now.tag ≡ Ok rows.items) }
        ensures held { IfErr result (λ e.
            IsHeld (scan self.now.store (ns_of m.now.op) (touched m.now.op) read_at m.now.tag) e) }
    {
        match touched(self.alloc, &m.op)? {
            Some(ids) => self
                .store
                .scan(namespace(&m.op), Some(ids.as_slice()), read_at, m.tag),
            None => self.store.scan(namespace(&m.op), None, read_at, m.tag),
        }
    }

    /// What comes of the operation over what the transaction sees; its own writes are in that.
    fn meant(&self, m: &Statement, read_at: Ts) -> Result<Meant, PartErr>
        ensures { IfOk result (λ x. x ≡ meant self.now m.now read_at) }
    {
        match self.rows(m, read_at) {
            Ok(rows) => self.meant_over(m, read_at, rows.as_slice()),
            Err(ScanErr::Held(held)) => Ok(Meant::HeldBy(held)),
            Err(ScanErr::Memory) => Err(PartErr::Memory),
        }
    }

    /// What comes of the operation over these rows.
    fn meant_over(&self, m: &Statement, read_at: Ts, rows: &[(Id, Doc)]) -> Result<Meant, PartErr>
        requires { scan self.now.store (ns_of m.now.op) (touched m.now.op) read_at m.now.tag
            ≡ Ok rows.now }
        ensures { IfOk result (λ x. x ≡ meant self.now m.now read_at) }
    {
        let _read_at = read_at;
        let _collections = self.store.collections();
        match eval(self.alloc, &m.op, rows, &Writes::new(self.alloc)) {
            Ok((reply, writes)) => Ok(Meant::Does(reply, writes)),
            Err(EvalErr::Op(err)) => Ok(Meant::Refused(err)),
            Err(EvalErr::Memory) => Err(PartErr::Memory),
        }
    }

    /// Evaluates the operation over what the transaction sees, and does it.
    fn perform(&mut self, wall: u32, m: &Statement, read_at: Ts) -> Result<Said, PartErr>
        requires once { elsewhere self.old m.now.lsid m.now.tag ≡ false }
        requires left { CanLeave (session self.old m.now.lsid) }
        ensures said { IfOk result (λ said. performed self.old wall m.now read_at
            (mine self.old m.now) ≡ (said, self.new)) }
        ensures err { OnErr result (self.new ≡ self.old) }
    {
        let meant = self.meant(m, read_at)?;
        match meant {
            Meant::HeldBy(held) => Ok(Said::Blocked(held)),
            Meant::Refused(err) => self.refuse(m, Cause::Statement { err }, read_at),
            Meant::Does(reply, writes) => self.write(wall, m, read_at, reply, writes),
        }
    }

    /// The first of the writes against which something stands, and what.
    fn conflict(
        &self,
        m: &Statement,
        read_at: Ts,
        writes: &[Write],
    ) -> Result<Option<(Id, By)>, AllocError>
        ensures { IfOk result (λ c. c ≡ conflict self.now.store read_at m.now.tag writes.now) }
    {
        for write in writes {
            if let Some(conflict) = self.conflict_of(m, read_at, write)? {
                return Ok(Some(conflict));
            }
        }
        Ok(None)
    }

    /// The id of a write against which something stands, and what.
    fn conflict_of(
        &self,
        m: &Statement,
        read_at: Ts,
        write: &Write,
    ) -> Result<Option<(Id, By)>, AllocError>
        ensures { IfOk result (λ c. c ≡ option_map (λ why. ((place_of write.now).1, why))
            (against read_at m.now.tag (versions_of self.now.store (place_of write.now)))) }
    {
        let (ns, id) = match write {
            Write::Put { ns, id, .. } => (ns, id),
            Write::Delete { ns, id } => (ns, id),
        };
        match self.store.against(ns, id, read_at, m.tag) {
            Some(by) => Ok(Some((id.copy(self.alloc)?, by))),
            None => Ok(None),
        }
    }

    /// Writes what was evaluated, unless a write conflicts.
    fn write(
        &mut self,
        wall: u32,
        m: &Statement,
        read_at: Ts,
        reply: OpReply,
        writes: Writes,
    ) -> Result<Said, PartErr>
        requires once { elsewhere self.old m.now.lsid m.now.tag ≡ false }
        requires left { CanLeave (session self.old m.now.lsid) }
        ensures said { IfOk result (λ said. writing self.old wall m.now read_at
            (mine self.old m.now) reply writes ≡ (said, self.new)) }
        ensures err { OnErr result (self.new ≡ self.old) }
    {
        match self.conflict(m, read_at, writes.as_slice())? {
            Some((id, by)) => self.refuse(m, Cause::WriteConflict { id, by }, Ts(0)),
            None => self.write_free(wall, m, read_at, reply, writes),
        }
    }

    /// The writes of the transaction, with those of the statement.
    fn writes_with(&self, m: &Statement, writes: &Writes) -> Result<Writes, AllocError>
        ensures { IfOk result (λ all. all ≡ writes_with (mine self.now m.now) writes.now) }
    {
        match self.mine(m) {
            Some(open) => merged(self.alloc, open.writes.as_slice(), writes),
            None => merged(self.alloc, &[], writes),
        }
    }

    /// When the transaction became live here.
    fn begun(&self, wall: u32, m: &Statement) -> u32
        ensures { result ≡ begun_of wall (mine self.now m.now) }
    {
        match self.mine(m) {
            Some(open) => open.begun,
            None => wall,
        }
    }

    /// What the transaction has after the statement.
    fn opened(
        &self,
        wall: u32,
        m: &Statement,
        read_at: Ts,
        reply: OpReply,
        writes: &Writes,
    ) -> Result<Open, AllocError>
        ensures { IfOk result
            (λ o. o ≡ opened wall m.now read_at (mine self.now m.now) reply writes.now) }
    {
        Ok(Open {
            tag: m.tag,
            read_at,
            begun: self.begun(wall, m),
            k: m.k,
            reply,
            wrote: wrote(writes),
            writes: self.writes_with(m, writes)?,
        })
    }

    /// Writes what was evaluated, unless the writes have too many bytes.
    fn write_free(
        &mut self,
        wall: u32,
        m: &Statement,
        read_at: Ts,
        reply: OpReply,
        writes: Writes,
    ) -> Result<Said, PartErr>
        requires once { elsewhere self.old m.now.lsid m.now.tag ≡ false }
        requires left { CanLeave (session self.old m.now.lsid) }
        requires free { conflict self.old.store read_at m.now.tag writes ≡ None }
        ensures said { IfOk result (λ said. within_volume self.old wall m.now read_at
            (mine self.old m.now) reply writes ≡ (said, self.new)) }
        ensures err { OnErr result (self.new ≡ self.old) }
    {
        let entry = self.opened(wall, m, read_at, reply.copy(self.alloc)?, &writes)?;
        let bytes = volume(entry.writes.as_slice());
        if MOST_BYTES < bytes {
            return self.refuse(m, Cause::Volume { bytes }, Ts(0));
        }
        self.put(m, entry, writes.as_slice())?;
        Ok(Said::Did {
            read_at,
            reply,
            wrote: wrote(&writes),
        })
    }

    /// Puts the writes, what the transaction has then, and its session.
    fn put(&mut self, m: &Statement, entry: Open, writes: &[Write]) -> Result<(), PartErr>
        requires once { elsewhere self.old m.now.lsid m.now.tag ≡ false }
        requires left { CanLeave (session self.old m.now.lsid) }
        requires free { AreFree m.now.tag self.old.store writes.now }
        requires kept { AllHaveOwnIds writes.now }
        requires tag { entry.tag ≡ m.now.tag }
        requires whole { entry.writes ≡ writes_with (mine self.old m.now) writes.now }
        ensures ok { OnOk result (self.new
            ≡ with_open (made_room self.old m.now (mine self.old m.now)) m.now entry writes.now) }
        ensures err { OnErr result (self.new ≡ self.old) }
    {
        let _count = self.live.len();
        let _collections = self.store.collections();
        let keys = keys_of(self.alloc, entry.writes.as_slice())?;
        let live = Live::new(entry, keys);
        put_all(
            &mut self.sessions,
            &mut self.live,
            &mut self.store,
            m,
            live,
            writes,
        )?;
        Ok(())
    }

    /// Refused, and the transaction is aborted; what the session had live is ended.
    fn refuse(&mut self, m: &Statement, cause: Cause, read_at: Ts) -> Result<Said, PartErr>
        requires once { elsewhere self.old m.now.lsid m.now.tag ≡ false }
        requires left { CanLeave (session self.old m.now.lsid) }
        ensures said { IfOk result
            (λ said. refuses self.old m.now cause read_at ≡ (said, self.new)) }
        ensures err { OnErr result (self.new ≡ self.old) }
    {
        let again = cause.copy(self.alloc)?;
        let _count = self.live.len();
        let _collections = self.store.collections();
        let session = aborted_session(m, cause, read_at);
        self.sessions.set(&m.lsid, session)?;
        drop_live(&mut self.live, &mut self.store, &m.lsid);
        Ok(Said::Refused {
            cause: again,
            read_at,
        })
    }
}
