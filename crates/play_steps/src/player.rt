//! What comes next of a schedule: first the messages that wait on connections, then what a line has
//! asked for, then the round of a settling, and then the next line.
ghost use Rattle.std.specs.Prelude.{◌≡◌, ℕ, List, ◌++◌, filter, not, nat_eq, IfOk, OnOk};
ghost use Rattle.play_script.specs.Lines.{line_of};

use crate::want::Want;
use client_streams::{Connections, Turn};
use play_script::{Line, LineErr, next_line, read_line};
use play_text::put_closed;
use std::alloc::{AllocError, Global};
use std::collections::VecDeque;
use std::marker::Model;
use txn_types::{Happening, NodeId};

/// One settling delivers no more.
const MOST_DELIVERIES: u64 = 1_000_000;

/// A schedule has no more lines.
const MOST_LINES: u64 = 10_000_000;

/// A list of commits that can be written.
pub trait CommitList {
    ghost text: { Self → List ℕ };

    /// Appends it.
    fn put(&self, alloc: Global, out: &mut Vec<u8>) -> Result<(), AllocError>
        ensures { OnOk result (out.new.items ≡ out.old.items ++ text self.now) };
}

/// A settling: the messages of the round that are left, whether a message became done in it, and
/// how many were delivered in all.
#[derive(Drop)]
pub(crate) struct Round {
    left: VecDeque<u64>,
    progress: bool,
    count: u64,
}

impl Model for Round {
    ghost use Rattle.play_steps.specs.Player.{Round};

    ghost Value = { Round };

    ghost view = { λ r. record { left = r.left.items; progress = r.progress; count = r.count } };
}

impl Round {
    ghost use Rattle.std.specs.Prelude.{◌≡◌, true};

    /// A message became done in it.
    pub(crate) fn make_progress(&mut self)
        ensures { self.new ≡ record self.old { progress = true } }
    {
        self.progress = true;
    }
}

/// A schedule being played.
#[derive(Drop)]
pub struct Player<'a> {
    pub(crate) alloc: Global,
    pub(crate) shards: u16,
    pub(crate) routers: u16,
    pub(crate) lines: &'a [u8],
    pub(crate) taken: u64,
    pub(crate) wall: u32,
    pub(crate) logs: bool,
    pub(crate) connections: Connections,
    pub(crate) serving: VecDeque<u32>,
    pub(crate) queue: VecDeque<Want>,
    pub(crate) round: Option<Round>,
    pub(crate) sent: u64,
    pub(crate) pending: Vec<u64>,
}

impl<'a> Model for Player<'a> {
    ghost use Rattle.std.specs.Prelude.{◌<◌};
    ghost use Rattle.std.specs.Coded.{codes};
    ghost use Rattle.bson_core.specs.contracts.value.Value as value;
    ghost use Rattle.txn_types.specs.contracts.filter.Filter as filter;
    ghost use Rattle.play_script.specs.Lines.{lines_of};
    ghost use Rattle.play_steps.specs.Player.{Player};

    ghost Value = { Player };

    ghost coded = { Prim.hlevel (codes, value.the_row.coded, filter.the_row.coded) };

    ghost view = { λ p. record { shards = p.shards; routers = p.routers; lines = lines_of p.lines.now; taken = p.taken; wall = p.wall; logs = p.logs; connections = p.connections; serving = p.serving.items; queue = p.queue.items; round = p.round; sent = p.sent; pending = p.pending.items } };

    ghost invariant = { λ p. 0 < p.routers };
}

impl<'a> Player<'a> {
    ghost use Rattle.std.specs.Prelude.{◌≡◌, ◌<◌, ℕ, List, ◌++◌, ◌∷◌, [], Some, None, length, drop, nat_eq, true, IfOk, OnOk, IfNone, MatchOption};
    ghost use Rattle.std.specs.List.{list_any};
    ghost use Rattle.txn_types.specs.declared.node.NodeId.TheVariants.{Router};
    ghost use Rattle.txn_types.specs.declared.event.Happening.TheVariants as what;
    ghost use Rattle.play_script.specs.Lines.{lines_of};
    ghost use Rattle.play_text.specs.Text.{closed_line};
    ghost use Rattle.play_steps.specs.declared.want.Want.TheVariants.{Event, Deliver, Renew};
    ghost use Rattle.play_steps.specs.Player.{first_player, router_of, shut, connection, with_conn, behind_text, ready, queue_ready, round_ready, delivers, undone};
    ghost use Rattle.play_steps.specs.Lines.{is_there, queued, asks, settles, moments, without_connections, lost, done_by, written, from_lines, next};
    ghost use Rattle.play_steps.specs.Steps.{behind_line, names_there};
    ghost use Rattle.client_streams.specs.Turns.{taken_from};

    /// Before the first of these lines; so many lines were taken for the configuration.
    pub fn new(alloc: Global, shards: u16, routers: u16, taken: u64, lines: &'a [u8]) -> Player<'a>
        requires { 0 < routers }
        ensures { result ≡ first_player shards routers taken (lines_of lines.now) }
    {
        Player {
            alloc,
            shards,
            routers,
            lines,
            taken,
            wall: 1,
            logs: false,
            connections: Connections::new(alloc),
            serving: VecDeque::new(alloc),
            queue: VecDeque::new(alloc),
            round: None,
            sent: 0,
            pending: Vec::new(alloc),
        }
    }

    /// The moment of the next event, in seconds since 1970.
    pub fn wall(&self) -> u32
        ensures { result ≡ self.now.wall }
    {
        self.wall
    }

    /// Whether messages and boots are written too.
    pub fn logs(&self) -> bool
        ensures { result ≡ self.now.logs }
    {
        self.logs
    }

    /// The router that a connection belongs to.
    fn router_of(&self, conn: u32) -> NodeId
        ensures { result ≡ Router (router_of self.now conn) }
    {
        NodeId::Router((conn % u32::from(self.routers)) as u16)
    }

    /// The bytes and the waiting messages of a connection are dropped.
    pub(crate) fn shut(&mut self, conn: u32) -> Result<(), AllocError>
        ensures { OnOk result (self.new ≡ shut self.old conn) }
    {
        self.connections.shut(conn)
    }

    /// A connection closes, for the reason of that number.
    fn close(&mut self, conn: u32, number: u8, out: &mut Vec<u8>) -> Result<(), AllocError>
        ensures text { OnOk result (out.new.items ≡ out.old.items ++ closed_line conn number) }
        ensures closed { OnOk result
            (self.new ≡ record (shut self.old conn) { serving = drop 1 self.old.serving }) }
    {
        put_closed(self.alloc, out, conn, number)?;
        self.shut(conn)?;
        self.serving.pop_front();
        Ok(())
    }

    /// A message of a connection is given to its router.
    #[tactic(auto, using(crate::proofs::Serving::dropped_none))]
    fn give(&mut self, conn: u32) -> Result<Option<Want>, AllocError>
        ensures given { IfOk result
            (λ w. MatchOption w ((connection self.old conn).waiting ≡ []) (λ x. (m : List ℕ)
            × ((connection self.old conn).waiting ≡ m ∷ drop 1 (connection self.old conn).waiting)
            × (x ≡ Event (Router (router_of self.old conn)) (what.Client conn m)))) }
        ensures rest { OnOk result
            (self.new ≡ with_conn self.old (taken_from (connection self.old conn))) }
    {
        match self.connections.give(conn)? {
            Some(frame) => Ok(Some(Want::Event {
                node: self.router_of(conn),
                happening: Happening::Client { conn, frame },
            })),
            None => Ok(None),
        }
    }

    /// What is served on the connections that are to be served: each until a message of it is
    /// unanswered.
    fn serve_all(&mut self, out: &mut Vec<u8>) -> Result<Option<Want>, AllocError>
        ensures { IfOk result (λ w. MatchOption w ((self.new.serving ≡ []) × (behind_text
            out.old.items (ready self.old) ≡ behind_text out.new.items (ready self.new)))
            (λ x. behind_text out.old.items (ready self.old) ≡ (out.new.items, Some x, self.new))) }
    {
        while let Some(conn) = self.first_served() {
            match self.connections.turn(conn) {
                Turn::Message => {
                    let want = self.give(conn)?;
                    return Ok(want);
                }
                Turn::Fault(number) => self.close(conn, number, out)?,
                Turn::Nothing => self.pass(),
            }
        }
        Ok(None)
    }

    /// The first connection that is to be served.
    fn first_served(&self) -> Option<u32>
        ensures { MatchOption result (self.now.serving ≡ [])
            (λ conn. self.now.serving ≡ conn ∷ drop 1 self.now.serving) }
    {
        self.serving.front().copied()
    }

    /// Nothing is served on the first connection that is to be served.
    fn pass(&mut self)
        ensures { self.new ≡ record self.old { serving = drop 1 self.old.serving } }
    {
        self.serving.pop_front();
    }

    /// Whether a message isn't done.
    fn is_pending(&self, number: u64) -> bool
        ensures { result ≡ list_any (nat_eq number) self.now.pending }
    {
        self.pending.iter().any(|other| number == *other)
    }

    /// Drops those in front of a round's messages that are done.
    fn drop_done(&self, left: &mut VecDeque<u64>)
        ensures { left.new.items ≡ undone self.now.pending left.old.items }
    {
        while let Some(number) = left.front().copied() {
            if self.is_pending(number) {
                return;
            }
            left.pop_front();
        }
    }

    /// All messages that aren't done.
    fn all_pending(&self) -> Result<VecDeque<u64>, AllocError>
        ensures { IfOk result (λ l. l.items ≡ self.now.pending) }
    {
        Ok(VecDeque::from_vec(Vec::from_slice(self.alloc, &self.pending)?))
    }

    /// The delivery of a round's first message, after so many in all; without one the settling
    /// ends.
    fn deliver(&mut self, count: u64, progress: bool, left: VecDeque<u64>) -> Option<Want>
        ensures { delivers self.old count progress left.items ≡ ([], result, self.new) }
    {
        self.round = None;
        let mut left = left;
        let number = left.pop_front()?;
        if count >= MOST_DELIVERIES {
            return Some(Want::Spent);
        }
        let count = count + 1;
        self.round = Some(Round {
            left,
            progress,
            count,
        });
        Some(Want::Deliver { number })
    }

    /// Takes the round out, if a settling is under way.
    fn take_round(&mut self) -> Option<Round>
        ensures round { result ≡ self.old.round }
        ensures rest { self.new ≡ record self.old { round = None } }
    {
        self.round.take()
    }

    /// The settling's next delivery; a round without progress ends it.
    fn settle_next(&mut self) -> Result<Option<Want>, AllocError>
        ensures { IfOk result (λ w. round_ready self.old self.old.round ≡ ([], w, self.new)) }
    {
        let Some(round) = self.take_round() else {
            return Ok(None);
        };
        let Round {
            left,
            progress,
            count,
        } = round;
        let mut left = left;
        self.drop_done(&mut left);
        if let Some(want) = self.deliver(count, progress, left) {
            return Ok(Some(want));
        }
        if !progress {
            return Ok(None);
        }
        let all = self.all_pending()?;
        Ok(self.deliver(count, false, all))
    }

    /// What is ready without a connection.
    fn queue_next(&mut self) -> Result<Option<Want>, AllocError>
        ensures { IfOk result (λ w. queue_ready self.old self.old.queue ≡ ([], w, self.new)) }
    {
        match self.queue.pop_front() {
            Some(want) => Ok(Some(want)),
            None => self.settle_next(),
        }
    }

    /// What is ready without a line.
    fn ready(&mut self, out: &mut Vec<u8>) -> Result<Option<Want>, AllocError>
        ensures { IfOk result
            (λ w. behind_text out.old.items (ready self.old) ≡ (out.new.items, w, self.new)) }
    {
        match self.serve_all(out)? {
            Some(want) => Ok(Some(want)),
            None => self.queue_next(),
        }
    }

    /// Puts a want after those that lines have asked for.
    fn enqueue(&mut self, want: Want) -> Result<(), AllocError>
        ensures { OnOk result (self.new ≡ queued self.old (want ∷ [])) }
    {
        self.queue.push_back(want)?;
        Ok(())
    }

    /// An event of the kind `Moment` for each node.
    fn moments(&mut self) -> Result<(), AllocError>
        ensures { OnOk result (self.new ≡ queued self.old (moments self.old)) }
    {
        for shard in 0..self.shards {
            self.enqueue(Want::Event {
                node: NodeId::Shard(shard),
                happening: Happening::Moment,
            })?;
        }
        for router in 0..self.routers {
            self.enqueue(Want::Event {
                node: NodeId::Router(router),
                happening: Happening::Moment,
            })?;
        }
        Ok(())
    }

    /// The wall stands at this second.
    fn set_wall(&mut self, secs: u32) -> Result<(), AllocError>
        ensures { OnOk result
            (self.new ≡ queued (record self.old { wall = secs }) (moments self.old)) }
    {
        self.wall = secs;
        self.moments()
    }

    /// Bytes come on a connection, which is served next.
    fn ask(&mut self, conn: u32, bytes: &[u8]) -> Result<(), AllocError>
        ensures { OnOk result (self.new ≡ asks self.old conn bytes.now) }
    {
        self.connections.feed(conn, bytes)?;
        self.serving.clear();
        self.serving.push_back(conn)?;
        Ok(())
    }

    /// A settling begins, once what stands before it is done.
    fn settle(&mut self)
        ensures { self.new ≡ settles self.old }
    {
        self.round = Some(Round {
            left: VecDeque::new(self.alloc),
            progress: true,
            count: 0,
        });
    }

    /// A connection ends.
    fn gone(&mut self, conn: u32) -> Result<(), AllocError>
        ensures { OnOk result (self.new ≡ queued (shut self.old conn)
            (Event (Router (router_of self.old conn)) (what.Gone conn) ∷ [])) }
    {
        self.shut(conn)?;
        let node = self.router_of(conn);
        let happening = Happening::Gone { conn };
        self.enqueue(Want::Event { node, happening })
    }

    /// Whether the node is there.
    fn is_there(&self, node: NodeId) -> bool
        ensures { result ≡ is_there self.now node }
    {
        match node {
            NodeId::Shard(number) => number < self.shards,
            NodeId::Router(number) => number < self.routers,
        }
    }

    /// A message counts as done.
    pub(crate) fn done(&mut self, number: u64)
        ensures { self.new ≡ lost self.old number }
    {
        drop_number(&mut self.pending, number);
    }

    /// A node's connections are dropped, where it is a router.
    fn drop_connections(&mut self, node: NodeId)
        ensures { self.new ≡ without_connections self.old node }
    {
        if let NodeId::Router(router) = node {
            self.connections.drop_of(router, self.routers);
        }
    }

    /// A node is to start anew; a router's connections are dropped.
    fn restart(&mut self, node: NodeId) -> Result<(), AllocError>
        ensures { OnOk result
            (self.new ≡ queued (without_connections self.old node) (Renew node ∷ [])) }
    {
        self.drop_connections(node);
        self.enqueue(Want::Renew { node })
    }

    /// A node is to send again what it waits for.
    fn resend(&mut self, node: NodeId) -> Result<(), AllocError>
        ensures { OnOk result (self.new ≡ queued self.old (Event node what.Resend ∷ [])) }
    {
        let happening = Happening::Resend;
        self.enqueue(Want::Event { node, happening })
    }

    /// Whether what the line names is there.
    fn has_named(&self, line: &Line) -> bool
        ensures { result ≡ names_there self.now line.now }
    {
        match line {
            Line::Deliver { number } | Line::Lose { number } => *number < self.sent,
            Line::Restart { node } | Line::Resend { node } => self.is_there(*node),
            _ => true,
        }
    }

    /// Does what a line asks; what it names is there.
    fn do_line<L: CommitList>(
        &mut self,
        line: Line,
        commits: &L,
        out: &mut Vec<u8>,
    ) -> Result<(), AllocError>
        requires { names_there self.old line ≡ true }
        ensures { OnOk result (behind_line out.old.items self.old
            (done_by (L.text commits.now) self.old line) ≡ (true, out.new.items, self.new)) }
    {
        match line {
            Line::Ask { conn, bytes } => self.ask(conn, bytes.as_slice())?,
            Line::Client { conn, bytes } => {
                self.ask(conn, bytes.as_slice())?;
                self.settle();
            }
            Line::Gone { conn } => self.gone(conn)?,
            Line::Deliver { number } => self.enqueue(Want::Deliver { number })?,
            Line::Lose { number } => self.done(number),
            Line::Settle => self.settle(),
            Line::Restart { node } => self.restart(node)?,
            Line::Resend { node } => self.resend(node)?,
            Line::Wall { secs } => self.set_wall(secs)?,
            Line::Dump => commits.put(self.alloc, out)?,
            Line::Log => self.logs = true,
        }
        Ok(())
    }

    /// What the next line brings, if it ends the playing. At the end of the schedule the list of
    /// commits is written.
    fn line_next<L: CommitList>(
        &mut self,
        commits: &L,
        out: &mut Vec<u8>,
    ) -> Result<Option<Want>, AllocError>
        ensures next { IfOk result (λ w. MatchOption w
            (written out.old.items (from_lines (L.text commits.now) self.old.lines self.old)
            ≡ written out.new.items (next (L.text commits.now) self.new))
            (λ x. written out.old.items (from_lines (L.text commits.now) self.old.lines self.old)
            ≡ (out.new.items, x, self.new))) }
        ensures fewer { IfOk result
            (λ w. IfNone w (length self.new.lines < length self.old.lines)) }
    {
        if self.lines.is_empty() {
            commits.put(self.alloc, out)?;
            return Ok(Some(Want::End));
        }
        let (line, rest) = next_line(self.lines);
        if self.taken >= MOST_LINES {
            return Ok(Some(Want::Spent));
        }
        let asked = asked_by(self.alloc, line)?;
        self.lines = rest;
        self.taken += 1;
        match asked {
            Some(asked_line) if self.has_named(&asked_line) => {
                self.do_line(asked_line, commits, out)?;
                Ok(None)
            }
            _ => Ok(Some(Want::Bad { line: self.taken })),
        }
    }

    /// What comes next; what is written before it is put after `out`.
    pub fn next<L: CommitList>(
        &mut self,
        commits: &L,
        out: &mut Vec<u8>,
    ) -> Result<Want, AllocError>
        ensures { IfOk result (λ w. written out.old.items (next (L.text commits.now) self.old)
            ≡ (out.new.items, w, self.new)) }
    {
        loop {
            if let Some(want) = self.ready(out)? {
                return Ok(want);
            }
            if let Some(want) = self.line_next(commits, out)? {
                return Ok(want);
            }
        }
    }
}

/// What a line asks, where it is one of a schedule.
fn asked_by(alloc: Global, line: &[u8]) -> Result<Option<Line>, AllocError>
    ensures { IfOk result (λ asked. asked ≡ line_of line.now) }
{
    match read_line(alloc, line) {
        Ok(asked) => Ok(Some(asked)),
        Err(LineErr::Memory) => Err(AllocError),
        Err(_) => Ok(None),
    }
}

/// Drops a number from a list.
fn drop_number(numbers: &mut Vec<u64>, number: u64)
    ensures { numbers.new.items ≡ filter (λ n. not (nat_eq n number)) numbers.old.items }
{
    numbers.retain(|other| *other != number);
}
