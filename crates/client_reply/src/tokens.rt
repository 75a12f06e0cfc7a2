ghost use Rattle.std.specs.Prelude.{◌≡◌, ◌∷◌, [], ◌++◌, codes, IfOk, OnOk};
ghost use Rattle.bson_core.specs.declared.value.Value.TheViews as views;
ghost use Rattle.client_reply.specs.Replies.{token_in, tag_bytes, tag_value, token_document, token_field};

use crate::fields::{Fields, put};
use crate::reply::Reply;
use bson_core::{Bin, Bytes, Doc, Value};
use sqlite_items::Items;
use std::alloc::{AllocError, Global};
use txn_types::{Tag, Token};

/// The token that the reply tells.
pub fn token_in(reply: &Reply) -> Option<Token>
    ensures { result ≡ token_in reply.now }
{
    match reply {
        Reply::Wrote { token, .. } | Reply::Found { token, .. } | Reply::Ended { token } => *token,
        Reply::Ping
        | Reply::Hello { .. }
        | Reply::Caused { .. }
        | Reply::TooOld { .. }
        | Reply::Refused(_) => None,
    }
}

/// Router, boot and serial of the tag, each with its highest byte first.
#[tactic(auto, using(crate::proofs::Tags::two_bytes, crate::proofs::Tags::four_bytes, crate::proofs::Tags::eight_bytes))]
fn tag_bytes(alloc: Global, tag: Tag) -> Result<Bytes, AllocError>
    ensures { IfOk result (λ b. b ≡ tag_bytes tag) }
{
    let mut bytes = Vec::new(alloc);
    bytes.extend_from_slice(&tag.router.to_be_bytes())?;
    bytes.extend_from_slice(&tag.boot.to_be_bytes())?;
    bytes.extend_from_slice(&tag.serial.to_be_bytes())?;
    Ok(Bytes::new(bytes))
}

fn tag_value(alloc: Global, tag: Tag) -> Result<Value, AllocError>
    ensures { IfOk result (λ v. v ≡ tag_value tag) }
{
    Ok(Value::Bin(Bin {
        subtype: 0,
        bytes: tag_bytes(alloc, tag)?,
    }))
}

fn token_document(alloc: Global, token: Token) -> Result<Doc, AllocError>
    ensures { IfOk result (λ d. d ≡ token_document token) }
{
    let mut fields = Vec::new(alloc);
    match token {
        Token::Early { tag } => {
            put(alloc, &mut fields, "tag", tag_value(alloc, tag)?)?;
        }
        Token::Placed { tag, shard, boot } => {
            let shard = Value::Int(i32::from(shard));
            put(alloc, &mut fields, "recoveryShardId", shard)?;
            put(alloc, &mut fields, "tag", tag_value(alloc, tag)?)?;
            put(alloc, &mut fields, "boot", Value::Long(i64::from(boot)))?;
        }
        Token::Other => {}
    }
    Ok(Items::from_vec(fields))
}

/// Appends a recovery token.
fn put_some_token(alloc: Global, fields: &mut Fields, token: Token) -> Result<(), AllocError>
    ensures { OnOk result (fields.new.items
        ≡ fields.old.items ++ (codes "recoveryToken", views.Doc (token_document token)) ∷ []) }
{
    let document = Value::Doc(token_document(alloc, token)?);
    put(alloc, fields, "recoveryToken", document)?;
    Ok(())
}

/// Appends the recovery token, where the reply tells one.
pub fn put_token(alloc: Global, fields: &mut Fields, token: Option<Token>) -> Result<(), AllocError>
    ensures { OnOk result (fields.new.items ≡ fields.old.items ++ token_field token) }
{
    match token {
        Some(token) => put_some_token(alloc, fields, token),
        None => Ok(()),
    }
}
