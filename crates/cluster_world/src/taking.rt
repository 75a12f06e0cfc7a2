//! A node takes an event.
ghost use Rattle.std.specs.Prelude.{◌≡◌, ◌<◌, ◌^◌, length};
ghost use Rattle.shard_core.specs.Laws.{HasTimes};
ghost use Rattle.shard_core.specs.NodeStep.{ShardTakes};
ghost use Rattle.shard_core.specs.State.{read_at_of};
ghost use Rattle.router_core.specs.Step.{RouterTakes};

use router_core::Routing;
use shard_core::Journalled;
use txn_types::{Envelope, Happening, Msg, NodeAnswer, NodeEvent, Ts};

/// What a shard answered; how many records its journal had before; and how often its disk has
/// failed by now.
#[derive(Drop)]
pub struct Taken {
    pub answer: NodeAnswer,
    pub records: usize,
    pub faults: u64,
}

/// A shard takes an event.
pub fn take_at_shard<S: Journalled>(shard: &mut S, event: &NodeEvent) -> Taken
    ensures takes { ShardTakes (S.state shard.old) event.now result.answer (S.state shard.new) }
    ensures records { result.records ≡ length (S.state shard.old).records }
    ensures faults { result.faults ≡ (S.state shard.new).faults }
{
    let records = shard.records().len();
    let answer = shard.take(event);
    Taken {
        answer,
        records,
        faults: shard.faults(),
    }
}

/// A router takes an event.
pub fn take_at_router<R: Routing>(router: &mut R, event: &NodeEvent) -> NodeAnswer
    ensures { RouterTakes (R.state router.old) event.now result (R.state router.new) }
{
    router.take(event)
}

/// A time is one of 64 bits.
fn check_time(time: Ts)
    ensures { time < 2 ^ 64 }
{
    let _number = time.0;
}

/// The times of a message are times.
fn check_message(envelope: &Envelope)
    ensures time { envelope.now.time < 2 ^ 64 }
    ensures read { read_at_of envelope.now.msg < 2 ^ 64 }
{
    check_time(envelope.time);
    match &envelope.msg {
        Msg::Statement(m) => check_time(m.read_at),
        Msg::Answer(m) => check_time(m.read_at),
        Msg::Commit(_)
        | Msg::Outcome(_)
        | Msg::Abort(_)
        | Msg::CommitTwo(_)
        | Msg::Prepare(_)
        | Msg::Vote(_)
        | Msg::Decide(_)
        | Msg::Acked(_)
        | Msg::Recover(_)
        | Msg::Nudge => {}
    }
}

/// The moment of an event is one, and so are the times of what is delivered.
pub fn check_times(event: &NodeEvent)
    ensures wall { event.now.wall < 2 ^ 32 }
    ensures times { HasTimes event.now.what }
{
    let _wall = event.wall;
    if let Happening::Deliver(envelope) = &event.what {
        check_message(envelope);
    }
}
