//! Replies in words, and what their documents say.
ghost use Rattle.std.specs.Prelude.{◌≡◌, true};
ghost use Rattle.client_reply.specs.Replies.{FitsReply};

use bson_core::Name;
use bson_text::print;
use client_reply::{Refusal, Reply, write_reply};
use std::alloc::{AllocError, Global};
use std::str::SplitWhitespace;
use txn_types::{By, Cause, Id, OpErr, Tag, Token, Ts, What};

/// The words of a reply, which are taken from the front. A word that is missing is empty, and one
/// that is no number is 0.
#[derive(Drop)]
struct Words<'a> {
    words: SplitWhitespace<'a>,
}

impl<'a> Words<'a> {
    fn next(&mut self) -> &'a str {
        self.words.next().unwrap_or("")
    }

    fn number(&mut self) -> u64 {
        self.next().parse::<u64>().unwrap_or(0)
    }

    fn signed(&mut self) -> i64 {
        self.next().parse::<i64>().unwrap_or(0)
    }

    fn short(&mut self) -> u16 {
        self.next().parse::<u16>().unwrap_or(0)
    }

    fn word(&mut self) -> u32 {
        self.next().parse::<u32>().unwrap_or(0)
    }

    fn byte(&mut self) -> u8 {
        self.next().parse::<u8>().unwrap_or(0)
    }

    /// Seconds and an increment.
    fn time(&mut self) -> Ts {
        let seconds = self.word();
        let increment = self.word();
        Ts(u64::from(seconds) << 32 | u64::from(increment))
    }

    /// Router, boot and serial.
    fn tag(&mut self) -> Tag {
        Tag {
            router: self.short(),
            boot: self.word(),
            serial: self.number(),
        }
    }

    /// A name, which may be missing.
    fn name(&mut self, alloc: Global) -> Result<Name, AllocError> {
        let word = self.next();
        if !Name::fits(word) {
            return Name::from_str(alloc, "");
        }
        Name::from_str(alloc, word)
    }

    fn token(&mut self) -> Option<Token> {
        match self.next() {
            "early" => Some(Token::Early { tag: self.tag() }),
            "placed" => Some(Token::Placed {
                tag: self.tag(),
                shard: self.short(),
                boot: self.word(),
            }),
            _ => None,
        }
    }
}

fn what_of(word: &str) -> What {
    match word {
        "duplicate" => What::Duplicate,
        "not-a-number" => What::NotNumber,
        "overflow" => What::Overflow,
        "immutable" => What::Immutable,
        _ => What::TooLarge,
    }
}

/// A cause, of a document by the number that is its id.
fn cause_of(words: &mut Words) -> Cause {
    match words.next() {
        "conflict" => Cause::WriteConflict {
            id: Id::Num(words.signed()),
            by: match words.next() {
                "with" => By::Tag(words.tag()),
                _ => By::At(words.time()),
            },
        },
        "expired" => Cause::Expired {
            begun: words.word(),
            now: words.word(),
        },
        "ended" => Cause::ClientAbort { why: words.byte() },
        "restarted" => Cause::Unavailable {
            carried: words.word(),
            have: words.word(),
        },
        "faulted" => Cause::Faulted {
            faults: words.number(),
        },
        "statement" => Cause::Statement {
            err: OpErr {
                what: what_of(words.next()),
                id: Id::Num(words.signed()),
                index: words.word(),
            },
        },
        kind => later_cause_of(kind, words),
    }
}

fn later_cause_of(kind: &str, words: &mut Words) -> Cause {
    match kind {
        "replaced" => Cause::Replaced {
            number: words.signed(),
            tag: words.tag(),
        },
        "volume" => Cause::Volume {
            bytes: words.number(),
        },
        "clock-end" => Cause::ClockEnd { last: words.time() },
        "prepared" => Cause::PreparedStands { tag: words.tag() },
        "sessions" => Cause::TooManySessions,
        "voted" => Cause::Voted {
            shard: words.short(),
            code: words.byte(),
        },
        "snapshot" => Cause::SnapshotTooOld {
            at: words.time(),
            floor: words.time(),
        },
        _ => Cause::Memory,
    }
}

fn refusal_of(alloc: Global, words: &mut Words) -> Result<Refusal, AllocError> {
    match words.next() {
        "Aborted" => Ok(Refusal::Aborted),
        "NoDecision" => Ok(Refusal::NoDecision),
        "NoTransaction" => Ok(Refusal::NoTransaction {
            number: words.signed(),
            commit: words.next() == "commit",
        }),
        "Busy" => Ok(Refusal::Busy),
        "Started" => Ok(Refusal::Started {
            number: words.signed(),
        }),
        "AfterCommit" => Ok(Refusal::AfterCommit),
        "TooLong" => Ok(Refusal::TooLong),
        "TooMany" => Ok(Refusal::TooMany),
        "Spent" => Ok(Refusal::Spent),
        "ManyShards" => Ok(Refusal::ManyShards),
        "ReplyTooLarge" => Ok(Refusal::ReplyTooLarge),
        "RetryWrite" => Ok(Refusal::RetryWrite),
        "ClusterTimeAhead" => Ok(Refusal::ClusterTimeAhead {
            secs: words.word(),
            wall: words.word(),
        }),
        "Unacknowledged" => Ok(Refusal::Unacknowledged),
        "BadKind" => Ok(Refusal::BadKind {
            byte: words.byte(),
            at: words.number(),
        }),
        "BadMessage" => Ok(Refusal::BadMessage {
            number: words.byte(),
        }),
        kind => named_refusal_of(alloc, kind, words),
    }
}

fn named_refusal_of(alloc: Global, kind: &str, words: &mut Words) -> Result<Refusal, AllocError> {
    let name = words.name(alloc)?;
    Ok(match kind {
        "UnknownOperator" => Refusal::UnknownOperator { name },
        "DottedName" => Refusal::DottedName { name },
        "WrongKind" => Refusal::WrongKind { name },
        "Missing" => Refusal::Missing { name },
        "UnknownField" => Refusal::UnknownField { name },
        _ => Refusal::Unknown { name },
    })
}

/// A reply; one of words that aren't known is refused as an unknown command.
fn reply_of(alloc: Global, words: &mut Words) -> Result<Reply, AllocError> {
    match words.next() {
        "ping" => Ok(Reply::Ping),
        "hello" => Ok(Reply::Hello {
            old_name: words.next() == "old",
            wall: words.word(),
            conn: words.word(),
        }),
        "wrote" => Ok(Reply::Wrote {
            n: words.number(),
            modified: None,
            token: words.token(),
        }),
        "updated" => Ok(Reply::Wrote {
            n: words.number(),
            modified: Some(words.number()),
            token: words.token(),
        }),
        "ended" => Ok(Reply::Ended {
            token: words.token(),
        }),
        "caused" => Ok(Reply::Caused {
            shard: words.short(),
            number: words.signed(),
            cause: cause_of(words),
        }),
        "older" => Ok(Reply::TooOld {
            number: words.signed(),
            have: words.signed(),
        }),
        _ => Ok(Reply::Refused(refusal_of(alloc, words)?)),
    }
}

/// Counts are below it.
const COUNTS: u64 = 1 << 63;

/// Whether the reply can be told: no count is above 2^63 - 1, and its token has a document.
fn can_be_told(reply: &Reply) -> bool
    ensures { result ≡ true → FitsReply reply.now }
{
    match reply {
        Reply::Wrote { n, modified, token } => {
            let fits = match modified {
                Some(modified) => *modified < COUNTS,
                None => true,
            };
            *n < COUNTS && fits && !matches!(token, Some(Token::Other))
        }
        Reply::Found { token, .. } | Reply::Ended { token } => {
            !matches!(token, Some(Token::Other))
        }
        Reply::Ping
        | Reply::Hello { .. }
        | Reply::Caused { .. }
        | Reply::TooOld { .. }
        | Reply::Refused(_) => true,
    }
}

/// The text of the document by which the reply is told. The words are those of the time and of the
/// reply.
pub fn reply_text(alloc: Global, line: &str) -> Result<String, AllocError> {
    let mut words = Words {
        words: line.split_whitespace(),
    };
    let time = words.time();
    let reply = reply_of(alloc, &mut words)?;
    if !can_be_told(&reply) {
        return String::from_str(alloc, "no reply");
    }
    let frame = write_reply(alloc, &reply, 0, false, time)?;
    match print(alloc, &frame.body) {
        Ok(text) => Ok(text),
        Err(_) => Err(AllocError),
    }
}
