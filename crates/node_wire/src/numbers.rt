//! Numbers, bytes and counts at the front of what is left of a message's bytes. Each reader gives
//! what it found and the bytes after it. `end` is the place after all of the bytes.
ghost use Rattle.std.specs.Prelude.{◌≡◌, ◌==◌, not, position, ◌<◌, ◌≤◌, length, IfOk, IfSome};
ghost use Rattle.std.specs.Int.{w16, w32, w64};
ghost use Rattle.node_wire.specs.Errors.{Gives};
ghost use Rattle.node_wire.specs.Reading.{place, byte_at, number_of, signed_at, bytes_of, zeros_at, count_at, flag_of, one_to, code_at};

use crate::error::WireErr;
use bson_core::front_u32;

/// Where the bytes begin.
pub fn start_of(end: u64, bytes: &[u8]) -> u64
    ensures { result ≡ place end bytes.now }
{
    end.saturating_sub(bytes.len() as u64)
}

/// The field that begins where the bytes begin can't be read.
pub fn fault(end: u64, bytes: &[u8]) -> WireErr
    ensures { result ≡ WireErr.Field (place end bytes.now) }
{
    WireErr::Field {
        at: start_of(end, bytes),
    }
}

pub fn read_u8(end: u64, bytes: &[u8]) -> Result<(u8, &[u8]), WireErr>
    ensures { Gives (λ x. (x.0, x.1.now)) result (byte_at end bytes.now) }
{
    match bytes.split_first() {
        Some((byte, rest)) => Ok((*byte, rest)),
        None => Err(WireErr::Field { at: end }),
    }
}

#[tactic(auto, unfolding(bson_core::specs::Reading::number_at))]
pub fn read_u16(end: u64, bytes: &[u8]) -> Result<(u16, &[u8]), WireErr>
    ensures { Gives (λ x. (x.0, x.1.now)) result (number_of w16 end bytes.now) }
{
    if bytes.len() < 2 {
        return Err(fault(end, bytes));
    }
    let (front, rest) = bytes.split_at(2);
    Ok((u16::from_le_bytes([front[0], front[1]]), rest))
}

pub fn read_u32(end: u64, bytes: &[u8]) -> Result<(u32, &[u8]), WireErr>
    ensures { Gives (λ x. (x.0, x.1.now)) result (number_of w32 end bytes.now) }
{
    match front_u32(bytes) {
        Some(found) => Ok(found),
        None => Err(fault(end, bytes)),
    }
}

#[tactic(auto, unfolding(bson_core::specs::Reading::number_at))]
pub fn read_u64(end: u64, bytes: &[u8]) -> Result<(u64, &[u8]), WireErr>
    ensures { Gives (λ x. (x.0, x.1.now)) result (number_of w64 end bytes.now) }
{
    if bytes.len() < 8 {
        return Err(fault(end, bytes));
    }
    let (front, rest) = bytes.split_at(8);
    let number = u64::from_le_bytes([
        front[0], front[1], front[2], front[3], front[4], front[5], front[6], front[7],
    ]);
    Ok((number, rest))
}

pub fn read_i64(end: u64, bytes: &[u8]) -> Result<(i64, &[u8]), WireErr>
    ensures { Gives (λ x. (x.0, x.1.now)) result (signed_at end bytes.now) }
{
    let (number, rest) = read_u64(end, bytes)?;
    Ok((number.cast_signed(), rest))
}

/// So many bytes.
#[tactic(auto, unfolding(crate::specs::Reading::bytes_of))]
pub fn read_bytes(count: usize, end: u64, bytes: &[u8]) -> Result<(&[u8], &[u8]), WireErr>
    ensures found { Gives (λ x. (x.0.now, x.1.now)) result (bytes_of count end bytes.now) }
    ensures count { IfOk result (λ x. length x.0.now ≡ count) }
    ensures within { IfOk result (λ x. count ≤ length bytes.now) }
{
    if bytes.len() < count {
        return Err(fault(end, bytes));
    }
    Ok(bytes.split_at(count))
}

/// The place of the first byte that isn't 0.
fn first_other(bytes: &[u8]) -> Option<usize>
    ensures place { result ≡ position (λ b. not (b == 0)) bytes.now }
    ensures within { IfSome result (λ n. n < length bytes.now) }
{
    bytes.iter().position(|b| *b != 0)
}

/// So many zeros, each a field; gives the bytes after them.
#[tactic(auto, unfolding(crate::specs::Reading::zeros_at))]
pub fn read_zeros(count: usize, end: u64, bytes: &[u8]) -> Result<&[u8], WireErr>
    ensures { Gives (λ x. x.now) result (zeros_at count end bytes.now) }
{
    let at = start_of(end, bytes);
    let front = &bytes[..count.min(bytes.len())];
    if let Some(place) = first_other(front) {
        return Err(WireErr::Field {
            at: at + place as u64,
        });
    }
    if bytes.len() < count {
        return Err(WireErr::Field { at: end });
    }
    Ok(&bytes[count..])
}

/// A count, or a length, of at most as many as bytes follow.
#[tactic(auto, unfolding(crate::specs::Reading::count_at))]
pub fn read_count(end: u64, bytes: &[u8]) -> Result<(usize, &[u8]), WireErr>
    ensures found { Gives (λ x. (x.0, x.1.now)) result (count_at end bytes.now) }
    ensures within { IfOk result (λ x. x.0 ≤ length x.1.now) }
{
    let (count, rest) = read_u32(end, bytes)?;
    let count = count as usize;
    if rest.len() < count {
        return Err(fault(end, bytes));
    }
    Ok((count, rest))
}

/// A byte that is 0 or 1.
#[tactic(auto, unfolding(crate::specs::Reading::code_at))]
pub fn read_flag(end: u64, bytes: &[u8]) -> Result<(bool, &[u8]), WireErr>
    ensures { Gives (λ x. (x.0, x.1.now)) result (code_at flag_of end bytes.now) }
{
    let (byte, rest) = read_u8(end, bytes)?;
    match byte {
        0 => Ok((false, rest)),
        1 => Ok((true, rest)),
        _ => Err(fault(end, bytes)),
    }
}

/// A byte from 1 to `most`.
#[tactic(auto, unfolding(crate::specs::Reading::code_at))]
pub fn read_one_to(most: u8, end: u64, bytes: &[u8]) -> Result<(u8, &[u8]), WireErr>
    ensures { Gives (λ x. (x.0, x.1.now)) result (code_at (one_to most) end bytes.now) }
{
    let (byte, rest) = read_u8(end, bytes)?;
    if 1 <= byte && byte <= most {
        Ok((byte, rest))
    } else {
        Err(fault(end, bytes))
    }
}
