//! How a router commits a transaction. First each participant without a write is asked, and has to
//! answer Released. Then the one that wrote commits by itself, or the first of several coordinates
//! them all.
ghost use Rattle.std.specs.Prelude.{◌≡◌, ◌≤◌, ◌&&◌, ◌∷◌, [], length, map, unwrap_or, Some, IfOk};
ghost use Rattle.txn_types.specs.Order.{same_tag};
ghost use Rattle.router_state.specs.State.{is_waited};
ghost use Rattle.router_state.specs.Deeds.{nothing, telling, told_if, in_session};
ghost use Rattle.router_state.specs.Shards.{writers};
ghost use Rattle.client_reply.specs.declared.reply.Refusal.TheVariants.{Aborted};
ghost use Rattle.client_reply.specs.declared.reply.Reply.TheVariants.{Refused};
ghost use Rattle.router_rules.specs.Safe.{IsSafeTransaction};
ghost use Rattle.router_rules.specs.Commits.{commit_to, commit_two_to, commit_reply, finished, waits, decides, commits, listens, commit_asked, outcome_reply, released, fails, checked, decided, on_outcome};

use crate::ends::aborts_but;
use crate::turns::{ends_in, gives, keeps, tells, turned};
use client_reply::{Refusal, Reply};
use router_state::{
    Asker, Deed, Given, Phase, Posts, Transaction, copy_posts, in_session, is_own, is_waited,
    readers, same_tag, token_of, told_if, without, writers,
};
use sqlite_items::Items;
use std::alloc::{AllocError, Global};
use txn_types::{Commit, CommitTwo, Lsid, Msg, Outcome, Parts, Told};

fn commit_to(lsid: Lsid, number: i64, t: &Transaction, part: (u16, u32)) -> (u16, Msg)
    ensures { result ≡ commit_to lsid number t.now part }
{
    (
        part.0,
        Msg::Commit(Commit {
            tag: t.tag,
            lsid,
            number,
            boot: part.1,
        }),
    )
}

fn commits_to(
    alloc: Global,
    lsid: Lsid,
    number: i64,
    t: &Transaction,
    parts: &[(u16, u32)],
) -> Result<Posts, AllocError>
    ensures { IfOk result (λ p. p ≡ map (commit_to lsid number t.now) parts.now) }
{
    let mut posts = Items::new(alloc);
    for part in parts {
        posts.push(commit_to(lsid, number, t, *part))?;
    }
    Ok(posts)
}

fn parts_of(alloc: Global, writers: &[(u16, u32)]) -> Result<Parts, AllocError>
    requires { length writers.now ≤ 65535 }
    ensures { IfOk result (λ p. p ≡ writers.now) }
{
    let mut parts = Parts::new(alloc);
    for (shard, boot) in writers {
        parts.push(*shard, *boot)?;
    }
    Ok(parts)
}

fn commit_two_to(
    alloc: Global,
    lsid: Lsid,
    number: i64,
    t: &Transaction,
    first: (u16, u32),
    all: &[(u16, u32)],
) -> Result<(u16, Msg), AllocError>
    requires all { all.now ≡ writers t.now }
    requires most { length t.now.wrote ≤ 65535 }
    ensures { IfOk result (λ p. p ≡ commit_two_to lsid number t.now first) }
{
    let parts = parts_of(alloc, all)?;
    let msg = Msg::CommitTwo(CommitTwo {
        tag: t.tag,
        lsid,
        number,
        boot: first.1,
        parts,
    });
    Ok((first.0, msg))
}

/// What is told of a commit: of a command by itself its reply, else the token.
fn commit_reply(alloc: Global, lsid: Lsid, t: &Transaction) -> Result<Reply, AllocError>
    ensures { IfOk result (λ r. r ≡ commit_reply lsid t.now) }
{
    if is_own(lsid) {
        match &t.reply {
            Some(reply) => reply.copy(alloc),
            None => Ok(Reply::Ended { token: None }),
        }
    } else {
        Ok(Reply::Ended {
            token: Some(token_of(t)),
        })
    }
}

/// It is known how the transaction ended, and whoever waits is told.
fn finished(
    alloc: Global,
    lsid: Lsid,
    number: i64,
    asker: Option<Asker>,
    phase: Phase,
    t: &Transaction,
) -> Result<Deed, AllocError>
    ensures { IfOk result (λ d. d ≡ finished lsid number asker phase t.now) }
{
    let reply = commit_reply(alloc, lsid, t)?;
    tells(alloc, number, asker, reply, phase, t)
}

/// These messages are sent and waited for.
fn waits(
    alloc: Global,
    number: i64,
    phase: Phase,
    posts: Posts,
    t: &Transaction,
) -> Result<Deed, AllocError>
    ensures { IfOk result (λ d. d ≡ waits number phase posts t.now) }
{
    let waiting = copy_posts(alloc, &posts)?;
    let t = turned(alloc, phase, waiting, t)?;
    Ok(in_session(number, t, Given::sending(alloc, posts)))
}

fn only(alloc: Global, post: (u16, Msg)) -> Result<Posts, AllocError>
    ensures { IfOk result (λ p. p ≡ post ∷ []) }
{
    let mut posts = Items::new(alloc);
    posts.push(post)?;
    Ok(posts)
}

/// The second step, by those that wrote.
fn decides(
    alloc: Global,
    lsid: Lsid,
    number: i64,
    asker: Option<Asker>,
    t: &Transaction,
) -> Result<Deed, AllocError>
    requires { length t.now.wrote ≤ 65535 }
    ensures { IfOk result (λ d. d ≡ decides lsid number asker t.now) }
{
    let all = writers(alloc, t)?;
    match all.as_slice() {
        [] => finished(alloc, lsid, number, asker, Phase::Released, t),
        [one] => {
            let posts = only(alloc, commit_to(lsid, number, t, *one))?;
            waits(alloc, number, Phase::Deciding { asker }, posts, t)
        }
        [first, _second, ..] => {
            let post = commit_two_to(alloc, lsid, number, t, *first, all.as_slice())?;
            let posts = only(alloc, post)?;
            waits(alloc, number, Phase::Deciding { asker }, posts, t)
        }
    }
}

/// The commit is begun: the first step, by those that didn't write.
pub fn commits(
    alloc: Global,
    lsid: Lsid,
    number: i64,
    asker: Option<Asker>,
    t: &Transaction,
) -> Result<Deed, AllocError>
    requires { length t.now.wrote ≤ 65535 }
    ensures { IfOk result (λ d. d ≡ commits lsid number asker t.now) }
{
    let readers = readers(alloc, t)?;
    match readers.as_slice() {
        [] => decides(alloc, lsid, number, asker, t),
        [_first, ..] => {
            let posts = commits_to(alloc, lsid, number, t, readers.as_slice())?;
            waits(alloc, number, Phase::Checking { asker }, posts, t)
        }
    }
}

/// A request to commit while the decision is asked for: it is listened to, and where the answer
/// wasn't kept the shard is asked again.
fn listens(
    alloc: Global,
    lsid: Lsid,
    number: i64,
    asker: Asker,
    t: &Transaction,
) -> Result<Deed, AllocError>
    requires { length t.now.wrote ≤ 65535 }
    ensures { IfOk result (λ d. d ≡ listens lsid number asker t.now) }
{
    if t.waiting.len() == 0 {
        decides(alloc, lsid, number, Some(asker), t)
    } else {
        let phase = Phase::Deciding { asker: Some(asker) };
        keeps(alloc, number, phase, t)
    }
}

/// The transaction is known as aborted, and whoever asks is told.
fn is_known_aborted(
    alloc: Global,
    number: i64,
    asker: Asker,
    t: &Transaction,
) -> Result<Deed, AllocError>
    ensures { IfOk result
        (λ d. d ≡ in_session number t.now (telling (told_if (Some asker) (Refused Aborted)))) }
{
    let told = Given::telling_one(alloc, asker, Reply::Refused(Refusal::Aborted))?;
    gives(alloc, number, t, told)
}

/// A request to commit a transaction that was begun here, after its refusals: a known end is told
/// again; an unanswered commit is listened to; and a shard whose answer wasn't kept is asked again.
pub fn commit_asked(
    alloc: Global,
    lsid: Lsid,
    number: i64,
    asker: Asker,
    t: &Transaction,
) -> Result<Deed, AllocError>
    requires { length t.now.wrote ≤ 65535 }
    ensures { IfOk result (λ d. d ≡ commit_asked lsid number asker t.now) }
{
    match &t.phase {
        Phase::Idle => commits(alloc, lsid, number, Some(asker), t),
        Phase::Asking { .. } => gives(alloc, number, t, Given::nothing(alloc)),
        Phase::Checking { .. } => {
            let phase = Phase::Checking { asker: Some(asker) };
            keeps(alloc, number, phase, t)
        }
        Phase::Deciding { .. } => listens(alloc, lsid, number, asker, t),
        Phase::Committed => finished(alloc, lsid, number, Some(asker), Phase::Committed, t),
        Phase::Released => finished(alloc, lsid, number, Some(asker), Phase::Released, t),
        Phase::Aborted { .. } => is_known_aborted(alloc, number, asker, t),
    }
}

/// What is told of an outcome, where `done` is told of a commit.
pub fn outcome_reply(
    alloc: Global,
    shard: u16,
    number: i64,
    done: Reply,
    told: &Told,
) -> Result<Reply, AllocError>
    ensures { IfOk result (λ r. r ≡ outcome_reply shard number done told.now) }
{
    match told {
        Told::Committed { .. } | Told::Released => Ok(done),
        Told::Aborted { cause } => Ok(Reply::Caused {
            shard,
            number,
            cause: cause.copy(alloc)?,
        }),
        Told::TooOld { have } => Ok(Reply::TooOld {
            number,
            have: *have,
        }),
        Told::NoTrace => Ok(Reply::Refused(Refusal::NoDecision)),
    }
}

/// A participant without a write has answered Released, and these are still waited for: the last of
/// them begins the second step.
fn released(
    alloc: Global,
    lsid: Lsid,
    number: i64,
    asker: Option<Asker>,
    t: &Transaction,
    posts: Posts,
) -> Result<Deed, AllocError>
    requires { length t.now.wrote ≤ 65535 }
    ensures { IfOk result (λ d. d ≡ released lsid number asker t.now posts) }
{
    if posts.len() == 0 {
        return decides(alloc, lsid, number, asker, t);
    }
    let mut t = t.copy(alloc)?;
    t.waiting = posts;
    Ok(in_session(number, t, Given::nothing(alloc)))
}

/// What is told of an outcome that aborts a commit.
fn failure(
    alloc: Global,
    lsid: Lsid,
    number: i64,
    asker: Option<Asker>,
    outcome: &Outcome,
    t: &Transaction,
) -> Result<Given, AllocError>
    ensures { IfOk result (λ g. g ≡ telling (told_if asker
        (outcome_reply outcome.now.shard number (commit_reply lsid t.now) outcome.now.told))) }
{
    let done = commit_reply(alloc, lsid, t)?;
    let reply = outcome_reply(alloc, outcome.shard, number, done, &outcome.told)?;
    Ok(Given::telling(alloc, told_if(alloc, asker, reply)?))
}

/// Any other outcome of a participant without a write aborts the transaction.
fn fails(
    alloc: Global,
    lsid: Lsid,
    number: i64,
    asker: Option<Asker>,
    outcome: &Outcome,
    t: &Transaction,
) -> Result<Deed, AllocError>
    ensures { IfOk result (λ d. d ≡ fails lsid number asker outcome.now t.now) }
{
    let posts = aborts_but(alloc, lsid, number, outcome.shard, t)?;
    let told = failure(alloc, lsid, number, asker, outcome, t)?;
    let given = Given::aborting(alloc, posts).both(told)?;
    ends_in(alloc, number, Phase::Aborted { sent: true }, t, given)
}

/// A participant without a write has answered.
fn checked(
    alloc: Global,
    lsid: Lsid,
    number: i64,
    asker: Option<Asker>,
    outcome: &Outcome,
    t: &Transaction,
) -> Result<Deed, AllocError>
    requires { length t.now.wrote ≤ 65535 }
    ensures { IfOk result (λ d. d ≡ checked lsid number asker outcome.now t.now) }
{
    match &outcome.told {
        Told::Released => {
            let left = without(alloc, outcome.shard, t.waiting.as_slice())?;
            released(alloc, lsid, number, asker, t, left)
        }
        Told::Committed { .. } => finished(alloc, lsid, number, asker, Phase::Committed, t),
        Told::Aborted { .. } | Told::TooOld { .. } | Told::NoTrace => {
            fails(alloc, lsid, number, asker, outcome, t)
        }
    }
}

/// The one that wrote, or the coordinator, has answered. An answer without a decision isn't kept:
/// the next request to commit asks again.
fn decided(
    alloc: Global,
    lsid: Lsid,
    number: i64,
    asker: Option<Asker>,
    outcome: &Outcome,
    t: &Transaction,
) -> Result<Deed, AllocError>
    ensures { IfOk result (λ d. d ≡ decided lsid number asker outcome.now t.now) }
{
    match &outcome.told {
        Told::Committed { .. } | Told::Released => {
            finished(alloc, lsid, number, asker, Phase::Committed, t)
        }
        Told::Aborted { cause } => {
            let reply = Reply::Caused {
                shard: outcome.shard,
                number,
                cause: cause.copy(alloc)?,
            };
            tells(
                alloc,
                number,
                asker,
                reply,
                Phase::Aborted { sent: true },
                t,
            )
        }
        Told::TooOld { have } => {
            let reply = Reply::TooOld {
                number,
                have: *have,
            };
            tells(
                alloc,
                number,
                asker,
                reply,
                Phase::Deciding { asker: None },
                t,
            )
        }
        Told::NoTrace => {
            let reply = Reply::Refused(Refusal::NoDecision);
            tells(
                alloc,
                number,
                asker,
                reply,
                Phase::Deciding { asker: None },
                t,
            )
        }
    }
}

/// Whether the outcome is the first of a shard that the commit asked.
fn is_asked(outcome: &Outcome, t: &Transaction) -> bool
    ensures { result
        ≡ (same_tag t.now.tag outcome.now.tag && is_waited outcome.now.shard t.now.waiting) }
{
    same_tag(t.tag, outcome.tag) && is_waited(outcome.shard, t.waiting.as_slice())
}

/// An outcome, in the session of a transaction that was begun here. None where it changes nothing.
#[tactic(auto, using(router_rules::proofs::Writing::few_wrote))]
pub fn on_outcome(
    alloc: Global,
    lsid: Lsid,
    number: i64,
    outcome: &Outcome,
    t: &Transaction,
) -> Result<Option<Deed>, AllocError>
    requires { IsSafeTransaction t.now }
    ensures { IfOk result (λ d. unwrap_or d (in_session number t.now nothing)
        ≡ on_outcome lsid number outcome.now t.now) }
{
    if !is_asked(outcome, t) {
        return Ok(None);
    }
    match &t.phase {
        Phase::Checking { asker } => { Ok(Some(checked(alloc, lsid, number, *asker, outcome, t)?)) }
        Phase::Deciding { asker } => { Ok(Some(decided(alloc, lsid, number, *asker, outcome, t)?)) }
        Phase::Idle
        | Phase::Asking { .. }
        | Phase::Committed
        | Phase::Released
        | Phase::Aborted { .. } => Ok(None),
    }
}
