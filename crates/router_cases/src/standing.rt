//! A router with its wall, and the ranges of routers to come.
use crate::cases::Cases;
use crate::unread::{Unread, bytes_of, sides};
use bson_core::{Bytes, Text};
use chunk_map::{ChunkMap, ChunkRow};
use node_wire::{from_frame, to_frame};
use op_msg::{read_frame, write_frame};
use router_core::Router;
use router_plan::Turn;
use std::alloc::{AllocError, Global};
use txn_types::{Envelope, Happening, Id, NodeEvent, Ns};

#[derive(Drop)]
pub struct Standing {
    shards: u16,
    rows: Vec<ChunkRow>,
    router: Router,
    wall: u32,
}

/// The id of this word: a number, or a text.
fn id_of(alloc: Global, word: &str) -> Result<Id, AllocError> {
    match word.parse::<i64>() {
        Ok(number) => Ok(Id::Num(number)),
        Err(_) => Ok(Id::Text(Text::new(String::from_str(alloc, word)?))),
    }
}

/// The range of `NAMESPACE SHARD` or `NAMESPACE SHARD from ID`.
fn range(alloc: Global, text: &str) -> Result<ChunkRow, Unread> {
    let (name, rest) = sides(text, " ")?;
    let (database, collection) = sides(name, ".")?;
    let Ok(ns) = Ns::of(alloc, database, collection) else {
        return Err(Unread::Word);
    };
    let (shard, from) = match rest.split_once(" from ") {
        Some((shard, id)) => (shard, Some(id_of(alloc, id)?)),
        None => (rest, None),
    };
    Ok(ChunkRow {
        ns,
        from,
        shard: shard.parse::<u16>()?,
    })
}

fn copy_rows(alloc: Global, rows: &[ChunkRow]) -> Result<Vec<ChunkRow>, AllocError> {
    let mut copy = Vec::new(alloc);
    for row in rows {
        copy.push(row.copy(alloc)?)?;
    }
    Ok(copy)
}

/// The message of a shard in these digits.
fn message(alloc: Global, digits: &str) -> Result<Envelope, Unread> {
    let bytes = bytes_of(alloc, digits)?;
    let Ok(frame) = read_frame(alloc, bytes.as_slice()) else {
        return Err(Unread::Word);
    };
    match from_frame(alloc, &frame) {
        Ok(envelope) => Ok(envelope),
        Err(_) => Err(Unread::Word),
    }
}

/// A client's message, of `CONNECTION DIGITS`.
fn client(alloc: Global, text: &str) -> Result<Happening, Unread> {
    let (conn, digits) = sides(text, " ")?;
    Ok(Happening::Client {
        conn: conn.parse::<u32>()?,
        frame: Bytes::new(bytes_of(alloc, digits)?),
    })
}

/// What a line says that happens to a router.
fn happening(alloc: Global, word: &str, rest: &str) -> Result<Happening, Unread> {
    match word {
        "client" => client(alloc, rest),
        "deliver" => Ok(Happening::Deliver(message(alloc, rest)?)),
        "gone" => Ok(Happening::Gone {
            conn: rest.parse::<u32>()?,
        }),
        "resend" => Ok(Happening::Resend),
        "moment" => Ok(Happening::Moment),
        _ => Err(Unread::Word),
    }
}

/// Finds the bytes of a message to a shard.
fn put_message(alloc: Global, envelope: &Envelope, found: &mut String) -> Result<(), AllocError> {
    let Ok(frame) = to_frame(alloc, envelope) else {
        return Err(AllocError);
    };
    let mut bytes = Vec::new(alloc);
    if write_frame(alloc, &frame, &mut bytes).is_err() {
        return Err(AllocError);
    }
    let digits = hex::encode(alloc, bytes.as_slice())?;
    write!(found, "{digits}\n")
}

/// Finds what a router gave out: messages, replies, and that the connection is closed.
fn put_turn(alloc: Global, turn: &Turn, found: &mut String) -> Result<(), AllocError> {
    for envelope in turn.out.as_slice() {
        put_message(alloc, envelope, found)?;
    }
    for (conn, bytes) in turn.replies.as_slice() {
        let digits = hex::encode(alloc, bytes.as_slice())?;
        write!(found, "reply {conn}: {digits}\n")?;
    }
    if let Some(number) = turn.closed {
        write!(found, "closed {number}\n")?;
    }
    if found.is_empty() {
        found.push_str("nothing\n")?;
    }
    Ok(())
}

/// Finds what a router gives out at an event.
fn taken(
    alloc: Global,
    router: &mut Router,
    event: &NodeEvent,
    found: &mut String,
) -> Result<(), AllocError> {
    let turn = router.step(event)?;
    put_turn(alloc, &turn, found)
}

impl Standing {
    /// Router 0 at boot 1, of one shard without ranges.
    pub fn new(alloc: Global) -> Result<Standing, AllocError> {
        let Ok(map) = ChunkMap::new(1, Vec::new(alloc)) else {
            return Err(AllocError);
        };
        Ok(Standing {
            shards: 1,
            rows: Vec::new(alloc),
            router: Router::of(alloc, 0, 1, map),
            wall: 1,
        })
    }

    /// A new router of `N boot B`, over the ranges that stand.
    fn start(&mut self, alloc: Global, text: &str) -> Result<(), Unread> {
        let (number, boot) = sides(text, " boot ")?;
        let (number, boot) = (number.parse::<u16>()?, boot.parse::<u32>()?);
        let rows = copy_rows(alloc, self.rows.as_slice())?;
        let Ok(map) = ChunkMap::new(self.shards, rows) else {
            return Err(Unread::Word);
        };
        self.router = Router::of(alloc, number, boot, map);
        self.wall = 1;
        Ok(())
    }

    /// Finds what the router gives out when this happens.
    fn give(&mut self, alloc: Global, what: Happening, found: &mut String) -> Result<(), Unread> {
        let event = NodeEvent {
            wall: self.wall,
            what,
        };
        Ok(taken(alloc, &mut self.router, &event, found)?)
    }

    /// Does what a line says.
    fn step(&mut self, alloc: Global, line: &str, found: &mut String) -> Result<(), Unread> {
        let (word, rest) = line.split_once(" ").unwrap_or((line, ""));
        match word {
            "shards" => {
                self.shards = rest.parse::<u16>()?;
                self.rows.clear();
            }
            "range" => self.rows.push(range(alloc, rest)?)?,
            "router" => self.start(alloc, rest)?,
            "wall" => self.wall = rest.parse::<u32>()?,
            "boot" => write!(found, "boot {}\n", self.router.boot())?,
            _ => self.give(alloc, happening(alloc, word, rest)?, found)?,
        }
        Ok(())
    }

    /// Does what the lines say.
    pub fn run(&mut self, alloc: Global, cases: &mut Cases) -> Result<(), AllocError> {
        for _ in 0..cases.len() {
            let line = cases.peek();
            if line.is_empty() {
                return Ok(());
            }
            cases.pass();
            let mut found = String::new(alloc);
            let done = self.step(alloc, line, &mut found);
            cases.close(line, done, found.as_str())?;
        }
        Ok(())
    }
}
