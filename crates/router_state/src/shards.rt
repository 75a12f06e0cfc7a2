//! Lists by shard.
ghost use Rattle.std.specs.Prelude.{◌≡◌, fold, IfOk};
ghost use Rattle.std.specs.Ordering.{nat_cmp};
ghost use Rattle.txn_types.specs.Order.{tag_cmp, same_tag};
ghost use Rattle.txn_semantics.specs.Keyed.{put};
ghost use Rattle.router_state.specs.State.{boot_of, is_waited, without, token_of};
ghost use Rattle.router_state.specs.Shards.{with_shard, has_written, readers, writers};

use crate::copies::copy_participants;
use crate::state::{Answers, Participants, Posts, Transaction};
use sqlite_items::Items;
use std::alloc::{AllocError, Global};
use std::cmp::Ordering;
use txn_types::{Answer, Msg, Tag, Token};

/// Tags by router, then by boot, then by serial.
pub fn tag_cmp(a: Tag, b: Tag) -> Ordering
    ensures { result ≡ tag_cmp a b }
{
    let later = a.boot.cmp(&b.boot).then(a.serial.cmp(&b.serial));
    a.router.cmp(&b.router).then(later)
}

/// Whether these are the tags of one transaction.
pub fn same_tag(a: Tag, b: Tag) -> bool
    ensures { result ≡ same_tag a b }
{
    tag_cmp(a, b).is_eq()
}

/// The boot that a participant told, 0 where it told none.
pub fn boot_of(parts: &[(u16, u32)], shard: u16) -> u32
    ensures { result ≡ boot_of parts.now shard }
{
    for (participant, boot) in parts {
        if *participant == shard {
            return *boot;
        }
    }
    0
}

/// Whether a message to the shard is unanswered.
pub fn is_waited(shard: u16, posts: &[(u16, Msg)]) -> bool
    ensures { result ≡ is_waited shard posts.now }
{
    for (to, _msg) in posts {
        if *to == shard {
            return true;
        }
    }
    false
}

/// Without what that shard was asked.
pub fn without(alloc: Global, shard: u16, posts: &[(u16, Msg)]) -> Result<Posts, AllocError>
    ensures { IfOk result (λ p. p ≡ without shard posts.now) }
{
    let mut kept = Items::new(alloc);
    for (to, msg) in posts {
        if *to != shard {
            kept.push((*to, msg.copy(alloc)?))?;
        }
    }
    Ok(kept)
}

/// The token of the transaction: the first shard that wrote, with its boot, once one has.
pub fn token_of(t: &Transaction) -> Token
    ensures { result ≡ token_of t.now }
{
    match t.wrote.as_slice() {
        [] => Token::Early { tag: t.tag },
        [shard, ..] => Token::Placed {
            tag: t.tag,
            shard: *shard,
            boot: boot_of(t.parts.as_slice(), *shard),
        },
    }
}

/// Whether the shard has written.
pub fn has_written(t: &Transaction, shard: u16) -> bool
    ensures { result ≡ has_written t.now shard }
{
    for wrote in t.wrote.as_slice() {
        if shard == *wrote {
            return true;
        }
    }
    false
}

/// The participants without a write, rising.
pub fn readers(alloc: Global, t: &Transaction) -> Result<Participants, AllocError>
    ensures { IfOk result (λ p. p ≡ readers t.now) }
{
    let mut readers = Items::new(alloc);
    for (shard, boot) in t.parts.as_slice() {
        if !has_written(t, *shard) {
            readers.push((*shard, *boot))?;
        }
    }
    Ok(readers)
}

/// Those that wrote, each with its boot, the first that wrote in front.
pub fn writers(alloc: Global, t: &Transaction) -> Result<Participants, AllocError>
    ensures { IfOk result (λ p. p ≡ writers t.now) }
{
    let mut writers = Items::new(alloc);
    for shard in t.wrote.as_slice() {
        writers.push((*shard, boot_of(t.parts.as_slice(), *shard)))?;
    }
    Ok(writers)
}

/// The participants with this one, in place of what was told of it before.
pub fn put_participant(
    alloc: Global,
    parts: &[(u16, u32)],
    shard: u16,
    boot: u32,
) -> Result<Participants, AllocError>
    ensures { IfOk result (λ p. p ≡ put nat_cmp shard boot parts.now) }
{
    let mut all = Items::new(alloc);
    let mut is_put = false;
    for (other, old) in parts {
        if is_put {
            all.push((*other, *old))?;
            continue;
        }
        match shard.cmp(other) {
            Ordering::Less => {
                all.push((shard, boot))?;
                all.push((*other, *old))?;
                is_put = true;
            }
            Ordering::Equal => {
                all.push((shard, boot))?;
                is_put = true;
            }
            Ordering::Greater => all.push((*other, *old))?,
        }
    }
    if !is_put {
        all.push((shard, boot))?;
    }
    Ok(all)
}

/// The answers with this one, in place of what the shard answered before.
pub fn put_answer(
    alloc: Global,
    answers: &[(u16, Answer)],
    answer: &Answer,
) -> Result<Answers, AllocError>
    ensures { IfOk result (λ a. a ≡ put nat_cmp answer.now.shard answer.now answers.now) }
{
    let mut all = Items::new(alloc);
    let mut is_put = false;
    for (other, old) in answers {
        if is_put {
            all.push((*other, old.copy(alloc)?))?;
            continue;
        }
        match answer.shard.cmp(other) {
            Ordering::Less => {
                all.push((answer.shard, answer.copy(alloc)?))?;
                all.push((*other, old.copy(alloc)?))?;
                is_put = true;
            }
            Ordering::Equal => {
                all.push((answer.shard, answer.copy(alloc)?))?;
                is_put = true;
            }
            Ordering::Greater => all.push((*other, old.copy(alloc)?))?,
        }
    }
    if !is_put {
        all.push((answer.shard, answer.copy(alloc)?))?;
    }
    Ok(all)
}

/// The participants and these shards, each with the boot that it told, if it did before.
pub fn with_shards(
    alloc: Global,
    parts: &Participants,
    shards: &[u16],
) -> Result<Participants, AllocError>
    ensures { IfOk result (λ p. p ≡ fold with_shard parts.now shards.now) }
{
    let mut all = copy_participants(alloc, parts)?;
    for shard in shards {
        let boot = boot_of(all.as_slice(), *shard);
        all = put_participant(alloc, all.as_slice(), *shard, boot)?;
    }
    Ok(all)
}
