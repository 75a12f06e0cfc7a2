ghost use Rattle.std.specs.Prelude.{◌≡◌, ◌∷◌, []};
ghost use Rattle.std.specs.List.{find, filter_map};
ghost use Rattle.client_cmd.specs.Errors.{Gives};
ghost use Rattle.client_cmd.specs.Commands.{time_under, seen_time, after_time, at_time, is_ahead, time_ahead, not_ahead};

use crate::error::CmdErr;
use bson_core::{Doc, get};
use command_parse::{document_in, time_in};
use txn_types::Ts;

/// How many seconds a time may be ahead of the wall: a year.
const MOST_AHEAD: u64 = 31_536_000;

/// The time in the field `inner` of the document in the field `outer`.
fn time_under(body: &Doc, outer: &str, inner: &str) -> Option<Ts>
    ensures { result ≡ time_under outer.now inner.now body.now }
{
    let fields = document_in(get(body, outer)?)?;
    time_in(get(fields, inner)?)
}

/// The cluster time that the client has seen.
pub fn seen_time(body: &Doc) -> Option<Ts>
    ensures { result ≡ seen_time body.now }
{
    time_under(body, "$clusterTime", "clusterTime")
}

/// The time that the client wants to have been seen.
pub fn after_time(body: &Doc) -> Option<Ts>
    ensures { result ≡ after_time body.now }
{
    time_under(body, "readConcern", "afterClusterTime")
}

/// The time that the client wants to read at.
pub fn at_time(body: &Doc) -> Option<Ts>
    ensures { result ≡ at_time body.now }
{
    time_under(body, "readConcern", "atClusterTime")
}

fn is_ahead(wall: u32, time: Ts) -> bool
    ensures { result ≡ is_ahead wall time }
{
    time.0 >> 32 > u64::from(wall) + MOST_AHEAD
}

/// The time, where there is one and it is too far ahead.
fn ahead(wall: u32, time: Option<Ts>) -> Option<Ts>
    ensures { result ≡ find (is_ahead wall) (filter_map (λ t. t) (time ∷ [])) }
{
    let time = time?;
    if is_ahead(wall, time) {
        Some(time)
    } else {
        None
    }
}

#[tactic(auto, using(crate::proofs::Ahead::three_times))]
fn time_ahead(wall: u32, body: &Doc) -> Option<Ts>
    ensures { result ≡ time_ahead wall body.now }
{
    let seen = ahead(wall, seen_time(body));
    let after = ahead(wall, after_time(body));
    let at = ahead(wall, at_time(body));
    seen.or(after).or(at)
}

/// Refuses the first of a message's times that is more than a year ahead of the wall: that of
/// gossip, then one to have seen, then one to read at.
pub fn check_times(wall: u32, body: &Doc) -> Result<(), CmdErr>
    ensures { result ≡ not_ahead wall (time_ahead wall body.now) }
{
    match time_ahead(wall, body) {
        Some(time) => Err(CmdErr::ClusterTimeAhead {
            secs: (time.0 >> 32) as u32,
            wall,
        }),
        None => Ok(()),
    }
}
