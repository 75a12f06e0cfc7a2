//! Numbers and bytes at the front of what is left of a record. Each reader gives what it found and
//! the bytes after it.
ghost use Rattle.std.specs.Prelude.{◌≡◌, ◌==◌, not, position, ◌<◌, ◌≤◌, length, IfOk, IfSome};
ghost use Rattle.std.specs.Int.{w16, w32, w64};
ghost use Rattle.journal_rec.specs.Errors.{Gives};
ghost use Rattle.journal_rec.specs.Reading.{place, byte_at, number_of, signed_at, bytes_at, zeros_at};

use crate::error::RecErr;
use bson_core::front_u32;

/// Where the bytes begin that are left of a record of `end` bytes.
pub fn start_of(end: u64, bytes: &[u8]) -> u64
    ensures { result ≡ place end bytes.now }
{
    end.saturating_sub(bytes.len() as u64)
}

pub fn read_u8(bytes: &[u8]) -> Result<(u8, &[u8]), RecErr>
    ensures { Gives (λ x. (x.0, x.1.now)) result (byte_at bytes.now) }
{
    match bytes.split_first() {
        Some((byte, rest)) => Ok((*byte, rest)),
        None => Err(RecErr::Short),
    }
}

#[tactic(auto, unfolding(bson_core::specs::Reading::number_at))]
pub fn read_u16(bytes: &[u8]) -> Result<(u16, &[u8]), RecErr>
    ensures { Gives (λ x. (x.0, x.1.now)) result (number_of w16 bytes.now) }
{
    if bytes.len() < 2 {
        return Err(RecErr::Short);
    }
    let (front, rest) = bytes.split_at(2);
    Ok((u16::from_le_bytes([front[0], front[1]]), rest))
}

pub fn read_u32(bytes: &[u8]) -> Result<(u32, &[u8]), RecErr>
    ensures { Gives (λ x. (x.0, x.1.now)) result (number_of w32 bytes.now) }
{
    match front_u32(bytes) {
        Some(found) => Ok(found),
        None => Err(RecErr::Short),
    }
}

#[tactic(auto, unfolding(bson_core::specs::Reading::number_at))]
pub fn read_u64(bytes: &[u8]) -> Result<(u64, &[u8]), RecErr>
    ensures { Gives (λ x. (x.0, x.1.now)) result (number_of w64 bytes.now) }
{
    if bytes.len() < 8 {
        return Err(RecErr::Short);
    }
    let (front, rest) = bytes.split_at(8);
    let number = u64::from_le_bytes([
        front[0], front[1], front[2], front[3], front[4], front[5], front[6], front[7],
    ]);
    Ok((number, rest))
}

pub fn read_i64(bytes: &[u8]) -> Result<(i64, &[u8]), RecErr>
    ensures { Gives (λ x. (x.0, x.1.now)) result (signed_at bytes.now) }
{
    let (number, rest) = read_u64(bytes)?;
    Ok((number.cast_signed(), rest))
}

/// So many bytes.
#[tactic(auto, unfolding(crate::specs::Reading::bytes_at))]
pub fn read_bytes(count: usize, bytes: &[u8]) -> Result<(&[u8], &[u8]), RecErr>
    ensures found { Gives (λ x. (x.0.now, x.1.now)) result (bytes_at count bytes.now) }
    ensures count { IfOk result (λ x. length x.0.now ≡ count) }
    ensures within { IfOk result (λ x. count ≤ length bytes.now) }
{
    if bytes.len() < count {
        return Err(RecErr::Short);
    }
    Ok(bytes.split_at(count))
}

/// The place of the first byte that isn't 0.
fn first_other(bytes: &[u8]) -> Option<usize>
    ensures place { result ≡ position (λ b. not (b == 0)) bytes.now }
    ensures within { IfSome result (λ n. n < length bytes.now) }
{
    bytes.iter().position(|b| *b != 0)
}

/// So many zeros; gives the bytes after them.
#[tactic(auto, unfolding(crate::specs::Reading::zeros_at))]
pub fn read_zeros(end: u64, count: usize, bytes: &[u8]) -> Result<&[u8], RecErr>
    ensures { Gives (λ x. x.now) result (zeros_at end count bytes.now) }
{
    let at = start_of(end, bytes);
    let (front, rest) = read_bytes(count, bytes)?;
    match first_other(front) {
        Some(place) => Err(RecErr::Field {
            at: at + place as u64,
        }),
        None => Ok(rest),
    }
}
