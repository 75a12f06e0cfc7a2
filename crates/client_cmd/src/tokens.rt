ghost use Rattle.std.specs.Prelude.{◌≡◌, ◌^◌, length};
ghost use Rattle.bson_core.specs.declared.value.Value.TheViews.{out-Value};
ghost use Rattle.client_cmd.specs.Tokens.{number_of_bytes, tag_of_bytes, tag_in, early, int_in, long_in, placed, token_by, token_in};

use bson_core::{Doc, Value};
use byteorder::{BigEndian, ByteOrder};
use txn_types::{Tag, Token};

/// The bytes of a tag.
const TAG_SIZE: usize = 14;

#[tactic(auto, using(crate::proofs::Numbers::two_bytes))]
fn number_of_two(bytes: &[u8]) -> u16
    requires { length bytes.now ≡ 2 }
    ensures { result ≡ number_of_bytes bytes.now }
{
    BigEndian::read_u16(bytes)
}

#[tactic(auto, using(crate::proofs::Numbers::four_bytes))]
fn number_of_four(bytes: &[u8]) -> u32
    requires { length bytes.now ≡ 4 }
    ensures { result ≡ number_of_bytes bytes.now }
{
    BigEndian::read_u32(bytes)
}

#[tactic(auto, using(crate::proofs::Numbers::eight_bytes))]
fn number_of_eight(bytes: &[u8]) -> u64
    requires { length bytes.now ≡ 8 }
    ensures { result ≡ number_of_bytes bytes.now }
{
    BigEndian::read_u64(bytes)
}

/// The tag that the bytes are: router, boot and serial.
fn tag_of_bytes(bytes: &[u8]) -> Tag
    requires { length bytes.now ≡ 14 }
    ensures { result ≡ tag_of_bytes bytes.now }
{
    Tag {
        router: number_of_two(&bytes[..2]),
        boot: number_of_four(&bytes[2..6]),
        serial: number_of_eight(&bytes[6..]),
    }
}

fn tag_in(value: &Value) -> Option<Tag>
    ensures { result ≡ tag_in (out-Value value.now) }
{
    let Value::Bin(bin) = value else {
        return None;
    };
    let bytes = bin.bytes.as_slice();
    if bin.subtype == 0 && bytes.len() == TAG_SIZE {
        return Some(tag_of_bytes(bytes));
    }
    None
}

/// The token of a transaction that has written nothing.
fn early(tag: Option<Tag>) -> Token
    ensures { result ≡ early tag }
{
    match tag {
        Some(tag) => Token::Early { tag },
        None => Token::Other,
    }
}

/// The token that names the shard that wrote first.
fn placed(shard: Option<u16>, tag: Option<Tag>, boot: Option<u32>) -> Token
    ensures { result ≡ placed shard tag boot }
{
    let Some(shard) = shard else {
        return Token::Other;
    };
    let Some(tag) = tag else {
        return Token::Other;
    };
    let Some(boot) = boot else {
        return Token::Other;
    };
    Token::Placed { tag, shard, boot }
}

fn shard_in(value: &Value) -> Option<u16>
    ensures { result ≡ int_in (2 ^ 16) (out-Value value.now) }
{
    match value {
        Value::Int(number) => u16::try_from(*number).ok(),
        _ => None,
    }
}

fn boot_in(value: &Value) -> Option<u32>
    ensures { result ≡ long_in (2 ^ 32) (out-Value value.now) }
{
    match value {
        Value::Long(number) => u32::try_from(*number).ok(),
        _ => None,
    }
}

fn token_of(doc: &Doc) -> Token
    ensures { result ≡ token_by doc.now }
{
    match doc.as_slice() {
        [(name, tag)] => {
            if name.as_str() != "tag" {
                return Token::Other;
            }
            early(tag_in(tag))
        }
        [(first, shard), (second, tag), (third, boot)] => {
            if first.as_str() == "recoveryShardId"
                && second.as_str() == "tag"
                && third.as_str() == "boot"
            {
                return placed(shard_in(shard), tag_in(tag), boot_in(boot));
            }
            Token::Other
        }
        _ => Token::Other,
    }
}

/// The recovery token that the value is: `{tag}`, or `{recoveryShardId, tag, boot}` with an Int, 14
/// bytes of subtype 0 and a Long, in this order. Any other value is `Other`, as are a shard and a
/// boot that fit no shard.
pub fn token_in(value: &Value) -> Token
    ensures { result ≡ token_in (out-Value value.now) }
{
    match value {
        Value::Doc(doc) => token_of(doc),
        _ => Token::Other,
    }
}
