//! What a record changes.
ghost use Rattle.std.specs.Prelude.{◌≡◌, ◌+◌, ◌-◌, ◌^◌, ◌<◌, [], ◌∷◌, ◌++◌, map, None, Some, true, IfOk, IfErr, Err, OnOk, OnErr, IsSomeAnd};
ghost use Rattle.txn_types.specs.Writes.{AllHaveOwnIds};
ghost use Rattle.txn_semantics.specs.Writes.{place_of};
ghost use Rattle.session_table.specs.Sessions.{session_of, with_session, state_behind, commit_time};
ghost use Rattle.version_store.specs.Versions.{decided, dropped, with_writes, keys_of};
ghost use Rattle.version_store.specs.TakenBack.{AreFree};
ghost use Rattle.journal_rec.specs.Follows.{first_refused};
ghost use Rattle.journal_rec.specs.declared.record.Decided.{Decided as Deciding};
ghost use Rattle.journal_rec.specs.declared.record.Rec.TheVariants as rec;
ghost use Rattle.shard_image.specs.Image.{can_follow_image, with_record, image_of, empty_image};
ghost use Rattle.shard_image.specs.Sound.{pending_of, IsWritten, AreWritten};
ghost use Rattle.shard_image.specs.Refusals.{IsRefused, IsRefusedAt};

use crate::image::{Image, ImageErr, Place};
use crate::order::{can_follow, find_pending};
use coordinator::Coord;
use journal_rec::{Decided, Rec};
use session_table::{Session, SessionState, Sessions};
use sqlite_items::Items;
use std::alloc::{AllocError, Global};
use txn_types::{Cause, Decision, Id, Lsid, Ns, Parts, Tag, Ts, Write, Writes};
use version_store::{Key, Keys, Pending, Pendings, Store, copy_keys, forget};

/// The namespace and the id of a write.
fn parts(write: &Write) -> (&Ns, &Id)
    ensures { (result.0.now, result.1.now) ≡ place_of write.now }
{
    match write {
        Write::Put { ns, id, .. } => (ns, id),
        Write::Delete { ns, id } => (ns, id),
    }
}

fn key_of(alloc: Global, write: &Write) -> Result<Key, AllocError>
    ensures { IfOk result (λ key. key ≡ place_of write.now) }
{
    let (ns, id) = parts(write);
    Ok(Key::new(ns.copy(alloc)?, id.copy(alloc)?))
}

/// The keys of writes.
fn keys_of_writes(alloc: Global, writes: &[Write]) -> Result<Keys, AllocError>
    ensures { IfOk result (λ keys. keys ≡ map place_of writes.now) }
{
    let mut keys = Vec::new(alloc);
    for write in writes {
        keys.push(key_of(alloc, write)?)?;
    }
    Ok(Items::from_vec(keys))
}

/// Lays a transaction's writes, and sets its session; or nothing has changed.
fn lay(
    store: &mut Store,
    sessions: &mut Sessions,
    keys: &[Key],
    tag: &Tag,
    lsid: &Lsid,
    session: Session,
    writes: &[Write],
) -> Result<(), ImageErr>
    requires free { AreFree tag.now store.old writes.now }
    requires kept { AllHaveOwnIds writes.now }
    requires keys { keys.now ≡ keys_of tag.now (with_writes tag.now store.old writes.now) }
    requires back { dropped tag.now (with_writes tag.now store.old writes.now) ≡ store.old }
    ensures store { OnOk result (store.new ≡ with_writes tag.now store.old writes.now) }
    ensures sessions { OnOk result (sessions.new ≡ with_session sessions.old lsid.now session) }
    ensures err { OnErr result ((store.new ≡ store.old) × (sessions.new ≡ sessions.old)) }
    ensures memory { OnErr result (result ≡ Err ImageErr.Memory) }
{
    store.put_all(*tag, writes)?;
    if let Err(failed) = sessions.set(lsid, session) {
        drop(failed);
        store.drop_txn(*tag, keys);
        return Err(ImageErr::Memory);
    }
    Ok(())
}

/// Lays the writes of a transaction that is prepared; or nothing has changed.
fn lay_prepared(
    store: &mut Store,
    sessions: &mut Sessions,
    pending: &mut Pendings,
    keys: &[Key],
    q: Pending,
    session: Session,
    writes: &[Write],
) -> Result<(), ImageErr>
    requires free { AreFree q.tag store.old writes.now }
    requires kept { AllHaveOwnIds writes.now }
    requires keys { keys.now ≡ keys_of q.tag (with_writes q.tag store.old writes.now) }
    requires back { dropped q.tag (with_writes q.tag store.old writes.now) ≡ store.old }
    ensures store { OnOk result (store.new ≡ with_writes q.tag store.old writes.now) }
    ensures sessions { OnOk result (sessions.new ≡ with_session sessions.old q.lsid session) }
    ensures pending { OnOk result (pending.new ≡ pending.old ++ q ∷ []) }
    ensures err { OnErr result
        ((store.new ≡ store.old) × (sessions.new ≡ sessions.old) × (pending.new ≡ pending.old)) }
    ensures memory { OnErr result (result ≡ Err ImageErr.Memory) }
{
    let tag = q.tag;
    let lsid = q.lsid;
    pending.push(q)?;
    match lay(store, sessions, keys, &tag, &lsid, session, writes) {
        Ok(()) => Ok(()),
        Err(refusal) => {
            let _last = pending.pop();
            Err(refusal)
        }
    }
}

/// Commits or drops what a prepared transaction wrote.
fn decide_pending(store: &mut Store, pending: &[Pending], tag: &Tag, at: Option<Ts>)
    requires { IsSomeAnd (pending_of pending.now tag.now)
        (λ q. q.keys ≡ keys_of tag.now store.old) }
    ensures { store.new ≡ decided tag.now at store.old }
{
    if let Some(q) = find_pending(pending, tag) {
        store.decide(*tag, q.keys.as_slice(), at);
    }
}

/// When a decision commits.
fn time_of(decision: &Decision) -> Option<Ts>
    ensures { result ≡ commit_time decision.now }
{
    match decision {
        Decision::Commit(at) => Some(*at),
        Decision::Abort { .. } => None,
    }
}

/// How a prepared transaction stands after a decision.
fn behind(decision: &Decision) -> SessionState
    ensures { result ≡ state_behind decision.now }
{
    match decision {
        Decision::Commit(at) => SessionState::Committed { at: *at },
        Decision::Abort { shard, code } => SessionState::Aborted {
            cause: Cause::Voted {
                shard: *shard,
                code: *code,
            },
            read_at: Ts(0),
        },
    }
}

/// The session after a decision.
fn session_behind(d: &Decided) -> Session
    ensures { result
        ≡ record { number = d.now.number; tag = d.now.tag; state = state_behind d.now.decision } }
{
    Session {
        number: d.number,
        tag: d.tag,
        state: behind(&d.decision),
    }
}

impl Image {
    fn boot(&mut self, boot: u32)
        requires follows { can_follow_image self.old (rec.Boot boot) ≡ true }
        requires room { self.old.count < 2 ^ 64 - 1 }
        ensures { self.new ≡ with_record self.old (rec.Boot boot) }
    {
        self.boot = boot;
        self.place.count += 1;
    }

    fn raise(&mut self, bound: Ts)
        requires follows { can_follow_image self.old (rec.Ceiling bound) ≡ true }
        requires room { self.old.count < 2 ^ 64 - 1 }
        ensures { self.new ≡ with_record self.old (rec.Ceiling bound) }
    {
        self.ceiling = bound;
        self.place.count += 1;
    }

    fn commit(
        &mut self,
        alloc: Global,
        tag: &Tag,
        lsid: &Lsid,
        number: i64,
        read_at: Ts,
        at: Ts,
        writes: &Writes,
    ) -> Result<(), ImageErr>
        requires follows { can_follow_image self.old (rec.Commit tag.now lsid.now number read_at at
            writes.now) ≡ true }
        requires written { IsWritten (rec.Commit tag.now lsid.now number read_at at writes.now) }
        requires room { self.old.count < 2 ^ 64 - 1 }
        ensures ok { OnOk result (self.new
            ≡ with_record self.old (rec.Commit tag.now lsid.now number read_at at writes.now)) }
        ensures err { OnErr result (self.new ≡ self.old) }
        ensures memory { OnErr result (result ≡ Err ImageErr.Memory) }
    {
        let writes = writes.as_slice();
        let keys = keys_of_writes(alloc, writes)?;
        let session = Session {
            number,
            tag: *tag,
            state: SessionState::Committed { at },
        };
        lay(
            &mut self.store,
            &mut self.sessions,
            keys.as_slice(),
            tag,
            lsid,
            session,
            writes,
        )?;
        self.store.decide(*tag, keys.as_slice(), Some(at));
        self.place.greatest = at;
        self.place.count += 1;
        Ok(())
    }

    fn prepare(
        &mut self,
        alloc: Global,
        q: Pending,
        number: i64,
        at: Ts,
        coordinator: u16,
        boot: u32,
        writes: &Writes,
    ) -> Result<(), ImageErr>
        requires follows { can_follow_image self.old (rec.Prepared q.tag q.lsid number boot
            q.read_at at coordinator writes.now) ≡ true }
        requires written { IsWritten (rec.Prepared q.tag q.lsid number boot q.read_at at coordinator
            writes.now) }
        requires keys { q.keys ≡ map place_of writes.now }
        requires room { self.old.count < 2 ^ 64 - 1 }
        ensures ok { OnOk result (self.new ≡ with_record self.old
            (rec.Prepared q.tag q.lsid number boot q.read_at at coordinator writes.now)) }
        ensures err { OnErr result (self.new ≡ self.old) }
        ensures memory { OnErr result (result ≡ Err ImageErr.Memory) }
    {
        let tag = q.tag;
        let keys = copy_keys(alloc, &q.keys)?;
        let session = Session {
            number,
            tag,
            state: SessionState::Prepared { at, coordinator },
        };
        lay_prepared(
            &mut self.store,
            &mut self.sessions,
            &mut self.pending,
            keys.as_slice(),
            q,
            session,
            writes.as_slice(),
        )?;
        self.store.prepare(tag, keys.as_slice(), at);
        self.place.greatest = at;
        self.place.count += 1;
        Ok(())
    }

    fn decide(&mut self, d: &Decided)
        requires follows { can_follow_image self.old (rec.Decided d.now) ≡ true }
        requires room { self.old.count < 2 ^ 64 - 1 }
        ensures { self.new ≡ with_record self.old (rec.Decided d.now) }
    {
        decide_pending(
            &mut self.store,
            self.pending.as_slice(),
            &d.tag,
            time_of(&d.decision),
        );
        forget(&mut self.pending, &d.tag);
        self.sessions.replace(&d.lsid, session_behind(d));
        self.place.count += 1;
    }

    fn start(&mut self, tag: &Tag, lsid: &Lsid, number: i64, parts: &Parts) -> Result<(), ImageErr>
        requires follows { can_follow_image self.old (rec.CoordStart tag.now lsid.now number
            parts.now) ≡ true }
        requires room { self.old.count < 2 ^ 64 - 1 }
        ensures ok { OnOk result
            (self.new ≡ with_record self.old (rec.CoordStart tag.now lsid.now number parts.now)) }
        ensures err { OnErr result (self.new ≡ self.old) }
        ensures memory { OnErr result (result ≡ Err ImageErr.Memory) }
    {
        if self
            .coord
            .start(*tag, *lsid, number, parts.as_slice())
            .is_err()
        {
            return Err(ImageErr::Memory);
        }
        self.place.count += 1;
        Ok(())
    }

    fn restore(&mut self, tag: &Tag, decision: Decision)
        requires follows { can_follow_image self.old (rec.CoordDecision tag.now decision) ≡ true }
        requires room { self.old.count < 2 ^ 64 - 1 }
        ensures { self.new ≡ with_record self.old (rec.CoordDecision tag.now decision) }
    {
        self.coord.restore(*tag, decision);
        self.place.count += 1;
    }

    fn forget(&mut self, tag: &Tag)
        requires follows { can_follow_image self.old (rec.CoordEnd tag.now) ≡ true }
        requires room { self.old.count < 2 ^ 64 - 1 }
        ensures { self.new ≡ with_record self.old (rec.CoordEnd tag.now) }
    {
        self.coord.forget(*tag);
        self.place.count += 1;
    }
}

fn prepare_copied(
    alloc: Global,
    image: &mut Image,
    tag: &Tag,
    lsid: &Lsid,
    number: i64,
    boot: u32,
    read_at: Ts,
    at: Ts,
    coordinator: u16,
    writes: &Writes,
) -> Result<(), ImageErr>
    requires follows { can_follow_image image.old (rec.Prepared tag.now lsid.now number boot read_at
        at coordinator writes.now) ≡ true }
    requires written { IsWritten (rec.Prepared tag.now lsid.now number boot read_at at coordinator
        writes.now) }
    requires room { image.old.count < 2 ^ 64 - 1 }
    ensures ok { OnOk result (image.new ≡ with_record image.old
        (rec.Prepared tag.now lsid.now number boot read_at at coordinator writes.now)) }
    ensures err { OnErr result (image.new ≡ image.old) }
    ensures memory { OnErr result (result ≡ Err ImageErr.Memory) }
{
    let keys = keys_of_writes(alloc, writes.as_slice())?;
    let q = Pending {
        tag: *tag,
        lsid: *lsid,
        read_at,
        keys,
    };
    image.prepare(alloc, q, number, at, coordinator, boot, writes)
}

/// What a record that can follow changes.
fn change(alloc: Global, image: &mut Image, rec: &Rec) -> Result<(), ImageErr>
    requires follows { can_follow_image image.old rec.now ≡ true }
    requires written { IsWritten rec.now }
    requires room { image.old.count < 2 ^ 64 - 1 }
    ensures ok { OnOk result (image.new ≡ with_record image.old rec.now) }
    ensures err { OnErr result (image.new ≡ image.old) }
    ensures memory { OnErr result (result ≡ Err ImageErr.Memory) }
{
    match rec {
        Rec::Boot { boot } => {
            image.boot(*boot);
            Ok(())
        }
        Rec::Ceiling { bound } => {
            image.raise(*bound);
            Ok(())
        }
        Rec::Commit {
            tag,
            lsid,
            number,
            read_at,
            at,
            writes,
        } => image.commit(alloc, tag, lsid, *number, *read_at, *at, writes),
        Rec::Prepared {
            tag,
            lsid,
            number,
            boot,
            read_at,
            at,
            coordinator,
            writes,
        } => prepare_copied(
            alloc,
            image,
            tag,
            lsid,
            *number,
            *boot,
            *read_at,
            *at,
            *coordinator,
            writes,
        ),
        Rec::Decided(d) => {
            image.decide(d);
            Ok(())
        }
        Rec::CoordStart {
            tag,
            lsid,
            number,
            parts,
        } => image.start(tag, lsid, *number, parts),
        Rec::CoordDecision { tag, decision } => {
            image.restore(tag, *decision);
            Ok(())
        }
        Rec::CoordEnd { tag } => {
            image.forget(tag);
            Ok(())
        }
        Rec::Floor { .. } => unreachable!(),
    }
}

/// Adds a record to a state. The writes of a record rise by namespace and id, as its bytes have
/// them.
pub fn apply(alloc: Global, image: &mut Image, rec: &Rec) -> Result<(), ImageErr>
    requires written { IsWritten rec.now }
    requires room { image.old.count < 2 ^ 64 - 1 }
    ensures follows { OnOk result (can_follow_image image.old rec.now ≡ true) }
    ensures ok { OnOk result (image.new ≡ with_record image.old rec.now) }
    ensures order { IfErr result (IsRefused (can_follow_image image.old rec.now) image.old.count) }
    ensures err { OnErr result (image.new ≡ image.old) }
{
    if !can_follow(image, rec) {
        return Err(ImageErr::BadOrder {
            index: image.place.count,
        });
    }
    change(alloc, image, rec)
}

/// The state without records.
fn empty(alloc: Global) -> Image
    ensures { result ≡ empty_image }
{
    Image {
        boot: 0,
        ceiling: Ts(0),
        store: Store::new(alloc),
        sessions: Sessions::new(alloc, MOST_SESSIONS),
        pending: Items::new(alloc),
        coord: Coord::new(alloc),
        place: Place {
            count: 0,
            greatest: Ts(0),
        },
    }
}

/// The most sessions that a shard keeps.
const MOST_SESSIONS: u32 = 1_000_000;

/// The state that records leave.
pub fn image_of(alloc: Global, recs: &[Rec]) -> Result<Image, ImageErr>
    requires { AreWritten recs.now }
    ensures follow { OnOk result (first_refused recs.now ≡ None) }
    ensures image { IfOk result (λ image. image ≡ image_of recs.now) }
    ensures order { IfErr result (IsRefusedAt (first_refused recs.now)) }
{
    let mut image = empty(alloc);
    for rec in recs {
        apply(alloc, &mut image, rec)?;
    }
    Ok(image)
}
