//! Fields of a fixed size, written into bytes that stand. They take no memory.
ghost use Rattle.std.specs.Prelude.{◌≡◌, ◌+◌, ◌≤◌, ◌++◌, [], ◌∷◌, length, take, drop};
ghost use Rattle.std.specs.Int.{w32, to_le_bytes};
ghost use Rattle.journal_rec.specs.Spelling.{tag_bytes, own_bytes, lsid_bytes, number_bytes, named_bytes, decision_bytes, decided_bytes, time_bytes, preparing_bytes, front_bytes};

use crate::record::{Decided, Rec};
use txn_types::{Decision, Lsid, Tag, Ts};

/// Writes bytes from a place on, and gives the place after them.
fn put(out: &mut [u8], at: usize, bytes: &[u8]) -> usize
    requires { at + length bytes.now ≤ length out.old }
    ensures place { result ≡ at + length bytes.now }
    ensures front { take result out.new ≡ take at out.old ++ bytes.now }
{
    let end = at + bytes.len();
    out[at..end].copy_from_slice(bytes);
    end
}

/// 14 bytes.
fn put_tag(out: &mut [u8], at: usize, tag: Tag) -> usize
    requires { at + 14 ≤ length out.old }
    ensures place { result ≡ at + 14 }
    ensures front { take result out.new ≡ take at out.old ++ tag_bytes tag }
{
    let boot = put(out, at, &tag.router.to_le_bytes());
    let serial = put(out, boot, &tag.boot.to_le_bytes());
    put(out, serial, &tag.serial.to_le_bytes())
}

/// 10 bytes.
fn put_own(out: &mut [u8], at: usize, router: u16, boot: u32, conn: u32) -> usize
    requires { at + 10 ≤ length out.old }
    ensures place { result ≡ at + 10 }
    ensures front { take result out.new ≡ take at out.old ++ own_bytes router boot conn }
{
    let second = put(out, at, &router.to_le_bytes());
    let third = put(out, second, &boot.to_le_bytes());
    put(out, third, &conn.to_le_bytes())
}

/// 17 bytes.
fn put_lsid(out: &mut [u8], at: usize, lsid: &Lsid) -> usize
    requires { at + 17 ≤ length out.old }
    ensures place { result ≡ at + 17 }
    ensures front { take result out.new ≡ take at out.old ++ lsid_bytes lsid.now }
{
    match lsid {
        Lsid::Client(bytes) => {
            let id = put(out, at, &[0]);
            put(out, id, bytes)
        }
        Lsid::Own { router, boot, conn } => {
            let own = put(out, at, &[1]);
            let zeros = put_own(out, own, *router, *boot, *conn);
            put(out, zeros, &[0; 6])
        }
    }
}

/// 39 bytes: the transaction that a record is of.
pub fn put_named(out: &mut [u8], at: usize, tag: Tag, lsid: &Lsid, number: i64) -> usize
    requires { at + 39 ≤ length out.old }
    ensures place { result ≡ at + 39 }
    ensures front { take result out.new ≡ take at out.old ++ named_bytes tag lsid.now number }
{
    let session = put_tag(out, at, tag);
    let digits = put_lsid(out, session, lsid);
    put(out, digits, &number.to_le_bytes())
}

/// 12 bytes.
fn put_decision(out: &mut [u8], at: usize, decision: &Decision) -> usize
    requires { at + 12 ≤ length out.old }
    ensures place { result ≡ at + 12 }
    ensures front { take result out.new ≡ take at out.old ++ decision_bytes decision.now }
{
    match decision {
        Decision::Commit(at_time) => {
            let time = put(out, at, &[1]);
            let zeros = put(out, time, &at_time.0.to_le_bytes());
            put(out, zeros, &[0; 3])
        }
        Decision::Abort { shard, code } => {
            let number = put(out, at, &[2, 0, 0, 0, 0, 0, 0, 0, 0]);
            let last = put(out, number, &shard.to_le_bytes());
            put(out, last, &[*code])
        }
    }
}

/// The bytes of a tag.
pub fn tag_array(tag: Tag) -> [u8; 14]
    ensures { result ≡ tag_bytes tag }
{
    let mut bytes = [0u8; 14];
    put_tag(&mut bytes, 0, tag);
    bytes
}

/// The bytes of the transaction that a record is of.
pub fn named_array(tag: Tag, lsid: &Lsid, number: i64) -> [u8; 39]
    ensures { result ≡ named_bytes tag lsid.now number }
{
    let mut bytes = [0u8; 39];
    put_named(&mut bytes, 0, tag, lsid, number);
    bytes
}

/// The bytes of a decision.
pub fn decision_array(decision: &Decision) -> [u8; 12]
    ensures { result ≡ decision_bytes decision.now }
{
    let mut bytes = [0u8; 12];
    put_decision(&mut bytes, 0, decision);
    bytes
}

/// Writes the kind of a record at a place, and gives the place after it.
fn put_kind(out: &mut [u8], at: usize, kind: u8) -> usize
    requires { at + 1 ≤ length out.old }
    ensures place { result ≡ at + 1 }
    ensures front { take result out.new ≡ take at out.old ++ kind ∷ [] }
{
    put(out, at, &[kind])
}

/// 8 bytes.
#[tactic(auto, unfolding(crate::specs::Spelling::time_bytes))]
fn put_time(out: &mut [u8], at: usize, time: Ts) -> usize
    requires { at + 8 ≤ length out.old }
    ensures place { result ≡ at + 8 }
    ensures front { take result out.new ≡ take at out.old ++ time_bytes time }
{
    put(out, at, &time.0.to_le_bytes())
}

/// A record that is a kind and a time: the last 9 of 64 bytes.
fn end_with_time(out: &mut [u8; 64], kind: u8, time: Ts)
    ensures { drop 55 out.new ≡ kind ∷ time_bytes time }
{
    let at = put_kind(out, 55, kind);
    put_time(out, at, time);
}

/// The last 5 of 64 bytes.
fn end_with_boot(out: &mut [u8; 64], boot: u32)
    ensures { drop 59 out.new ≡ 1 ∷ to_le_bytes w32 boot }
{
    let at = put_kind(out, 59, 1);
    put(out, at, &boot.to_le_bytes());
}

/// The last 56 of 64 bytes.
fn end_with_commit(out: &mut [u8; 64], tag: Tag, lsid: &Lsid, number: i64, read_at: Ts, at: Ts)
    ensures { drop 8 out.new
        ≡ 3 ∷ named_bytes tag lsid.now number ++ (time_bytes read_at ++ time_bytes at) }
{
    let named = put_kind(out, 8, 3);
    let times = put_named(out, named, tag, lsid, number);
    let last = put_time(out, times, read_at);
    put_time(out, last, at);
}

/// 22 bytes.
fn put_preparing(
    out: &mut [u8],
    place: usize,
    boot: u32,
    read_at: Ts,
    at: Ts,
    coordinator: u16,
) -> usize
    requires { place + 22 ≤ length out.old }
    ensures place { result ≡ place + 22 }
    ensures front { take result out.new
        ≡ take place out.old ++ preparing_bytes boot read_at at coordinator }
{
    let times = put(out, place, &boot.to_le_bytes());
    let second = put_time(out, times, read_at);
    let last = put_time(out, second, at);
    put(out, last, &coordinator.to_le_bytes())
}

/// The last 62 of 64 bytes.
fn end_with_prepared(
    out: &mut [u8; 64],
    tag: Tag,
    lsid: &Lsid,
    number: i64,
    boot: u32,
    read_at: Ts,
    at: Ts,
    coordinator: u16,
)
    ensures { drop 2 out.new
        ≡ 4 ∷ named_bytes tag lsid.now number ++ preparing_bytes boot read_at at coordinator }
{
    let named = put_kind(out, 2, 4);
    let preparing = put_named(out, named, tag, lsid, number);
    put_preparing(out, preparing, boot, read_at, at, coordinator);
}

/// The last 15 of 64 bytes.
fn end_with_end(out: &mut [u8; 64], tag: Tag)
    ensures { drop 49 out.new ≡ 8 ∷ tag_bytes tag }
{
    let at = put_kind(out, 49, 8);
    put_tag(out, at, tag);
}

/// The last 27 of 64 bytes.
fn end_with_decision(out: &mut [u8; 64], tag: Tag, decision: &Decision)
    ensures { drop 37 out.new ≡ 7 ∷ tag_bytes tag ++ decision_bytes decision.now }
{
    let at = put_kind(out, 37, 7);
    let last = put_tag(out, at, tag);
    put_decision(out, last, decision);
}

/// The last 40 of 64 bytes.
fn end_with_start(out: &mut [u8; 64], tag: Tag, lsid: &Lsid, number: i64)
    ensures { drop 24 out.new ≡ 6 ∷ named_bytes tag lsid.now number }
{
    let at = put_kind(out, 24, 6);
    put_named(out, at, tag, lsid, number);
}

/// Writes what stands in front of a record's writes or participants, or the whole of a record
/// without any, at the end of these bytes, and gives the place where it begins. It takes no memory.
pub fn write_front(rec: &Rec, out: &mut [u8; 64]) -> usize
    ensures place { result ≤ 64 }
    ensures front { drop result out.new ≡ front_bytes rec.now }
{
    match rec {
        Rec::Boot { boot } => {
            end_with_boot(out, *boot);
            59
        }
        Rec::Ceiling { bound } => {
            end_with_time(out, 2, *bound);
            55
        }
        Rec::Commit {
            tag,
            lsid,
            number,
            read_at,
            at,
            ..
        } => {
            end_with_commit(out, *tag, lsid, *number, *read_at, *at);
            8
        }
        Rec::Prepared {
            tag,
            lsid,
            number,
            boot,
            read_at,
            at,
            coordinator,
            ..
        } => {
            end_with_prepared(out, *tag, lsid, *number, *boot, *read_at, *at, *coordinator);
            2
        }
        Rec::Decided(decided) => {
            write_decided(decided, out);
            0
        }
        Rec::CoordStart {
            tag,
            lsid,
            number,
            ..
        } => {
            end_with_start(out, *tag, lsid, *number);
            24
        }
        Rec::CoordDecision { tag, decision } => {
            end_with_decision(out, *tag, decision);
            37
        }
        Rec::CoordEnd { tag } => {
            end_with_end(out, *tag);
            49
        }
        Rec::Floor { floor } => {
            end_with_time(out, 9, *floor);
            55
        }
    }
}

/// Writes the bytes of a Decided record, which are 64. It takes no memory.
pub fn write_decided(decided: &Decided, out: &mut [u8; 64])
    ensures { out.new ≡ decided_bytes decided.now }
{
    let named = put(out, 0, &[5]);
    let decision = put_named(out, named, decided.tag, &decided.lsid, decided.number);
    let zeros = put_decision(out, decision, &decided.decision);
    put(out, zeros, &[0; 12]);
}
