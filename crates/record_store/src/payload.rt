//! The bytes of a record that is to be appended.
ghost use Rattle.std.specs.Prelude.{◌≡◌, ◌≢◌, ◌⊎◌, ◌≤◌, ◌++◌, [], true, false, length, take, drop, IfOk};
ghost use Rattle.txn_types.specs.Limits.{most_written};
ghost use Rattle.journal_rec.specs.Spelling.{record_bytes, front_bytes, body_bytes, parts_bytes};
ghost use Rattle.journal_rec.specs.Volume.{volume, writes_bytes};

use journal_rec::{Rec, encode_parts, encode_writes, write_front};
use std::alloc::{AllocError, Global};
use std::marker::Model;
use txn_types::{Parts, Write};

/// How many bytes the front of a record has at most.
const FRONT: usize = 64;

/// What a record that is to be appended may carry after its front, its writes or its participants,
/// with room for a front. It is made before the record is there, so that the record itself is
/// appended without memory.
#[derive(Drop)]
pub struct Payload {
    bytes: Vec<u8>,
}

impl Model for Payload {
    ghost use Rattle.std.specs.Prelude.{◌≤◌, ℕ, List, length};

    ghost Value = { List ℕ };

    ghost view = { λ p. p.bytes.items };

    ghost invariant = { λ p. (64 ≤ length p.bytes.items) × (length p.bytes.items ≤ 134217728) };
}

/// Whether records of this kind carry anything after their front.
fn carries(rec: &Rec) -> bool
    ensures some { result ≡ false → body_bytes rec.now ≡ [] }
    ensures none { result ≡ true → body_bytes rec.now ≢ [] }
{
    match rec {
        Rec::Commit { .. } | Rec::Prepared { .. } | Rec::CoordStart { .. } => true,
        _ => false,
    }
}

/// The room for a front.
fn room(alloc: Global) -> Result<Vec<u8>, AllocError>
    ensures { IfOk result (λ v. length v.items ≡ 64) }
{
    vec![in alloc; 0u8; FRONT]
}

/// Writes these bytes over the first ones.
fn put_first(bytes: &mut [u8], front: &[u8; FRONT])
    requires { 64 ≤ length bytes.old }
    ensures { bytes.new ≡ front.now ++ drop 64 bytes.old }
{
    bytes[..FRONT].copy_from_slice(front);
}

impl Payload {
    /// Nothing is carried.
    pub fn new(alloc: Global) -> Result<Payload, AllocError>
        ensures { IfOk result (λ p. drop 64 p ≡ []) }
    {
        let bytes = room(alloc)?;
        Ok(Payload { bytes })
    }

    /// Writes are carried.
    pub fn of_writes(alloc: Global, writes: &[Write]) -> Result<Payload, AllocError>
        requires { volume writes.now ≤ most_written }
        ensures { IfOk result (λ p. drop 64 p ≡ writes_bytes writes.now) }
    {
        let mut bytes = room(alloc)?;
        match encode_writes(alloc, writes, &mut bytes) {
            Ok(()) => Ok(Payload { bytes }),
            Err(_) => Err(AllocError),
        }
    }

    /// Participants are carried.
    pub fn of_parts(alloc: Global, parts: &Parts) -> Result<Payload, AllocError>
        ensures { IfOk result (λ p. drop 64 p ≡ parts_bytes parts.now) }
    {
        let count = parts.as_slice().len();
        prove!(count <= 65535);
        let mut bytes = room(alloc)?;
        match encode_parts(parts, &mut bytes) {
            Ok(()) => Ok(Payload { bytes }),
            Err(_) => Err(AllocError),
        }
    }

    /// Writes the front of a record at the end of the room for it, and gives the place where it
    /// begins.
    pub(crate) fn put_front(&mut self, rec: &Rec) -> usize
        ensures place { result ≤ 64 }
        ensures front { drop result (take 64 self.new) ≡ front_bytes rec.now }
        ensures carried { drop 64 self.new ≡ drop 64 self.old }
    {
        let mut front = [0u8; FRONT];
        let place = write_front(rec, &mut front);
        put_first(&mut self.bytes, &front);
        place
    }

    /// The bytes of a record whose front was written at this place.
    pub(crate) fn record_at(&self, place: usize, rec: &Rec) -> &[u8]
        requires place { place ≤ 64 }
        requires front { drop place (take 64 self.now) ≡ front_bytes rec.now }
        requires carries { (body_bytes rec.now ≡ []) ⊎ (body_bytes rec.now ≡ drop 64 self.now) }
        ensures bytes { result.now ≡ record_bytes rec.now }
        ensures short { length result.now ≤ 134217728 }
    {
        if carries(rec) {
            return &self.bytes[place..];
        }
        &self.bytes[place..FRONT]
    }
}
