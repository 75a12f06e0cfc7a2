ghost use Rattle.std.specs.Prelude.{◌≡◌, ◌↔◌, [], ℕ, Some, None, IsTrue, map, string_bytes, vec_len};
ghost use Rattle.outcomes.specs.Causes.{Rose};
ghost use Rattle.outcomes.specs.Told.{WhereKnown};
ghost use Rattle.mtx.specs.Words.{word_at_fault};
ghost use Rattle.mtx.specs.Play.{IsPlayed};
ghost use Rattle.mtx.specs.Ending.{IsUnread};

use crate::status::Status;
use cluster_play::play_input;
use outside_core::{Disk, Sink, Source, SourceErr};
use play_script::read_input;
use std::alloc::Global;

/// Reads the whole schedule, and then plays it.
fn play<S: Source, K: Sink, D: Disk>(
    alloc: Global,
    src: &mut S,
    out: &mut K,
    disks: &mut Vec<D>,
) -> Status
    requires disks { vec_len disks.old ≡ 24 }
    ensures played { WhereKnown (S.left src.old) (λ input. IsPlayed ((d : D) → IsTrue (D.tells d))
        input (K.held out.old) (K.held out.new) result) }
    ensures at_end { result ≡ Status.Ok
        → WhereKnown (S.left src.old) (λ input. S.left src.new ≡ Some []) }
    ensures disks { vec_len disks.new ≡ 24 }
    ensures unread { IsUnread result → K.held out.new ≡ K.held out.old }
    ensures words { (index : ℕ) → result ≡ Status.BadWords index → ⊥ }
    ensures read_fault { result ≡ Status.ReadFault
        → Rose (S.fault_count src.old) (S.fault_count src.new) }
    ensures write_fault { result ≡ Status.WriteFault
        → Rose (K.fault_count out.old) (K.fault_count out.new) }
{
    match read_input(alloc, src) {
        Ok(input) => Status::from(play_input(alloc, input, out, disks)),
        Err(SourceErr::Failed) => Status::ReadFault,
        Err(SourceErr::Memory) => Status::Memory,
    }
}

/// Does what the words of the command line say. The only command so far is `play`.
pub fn offline<S: Source, K: Sink, D: Disk>(
    alloc: Global,
    words: &[String],
    src: &mut S,
    out: &mut K,
    disks: &mut Vec<D>,
) -> Status
    // Place `n` is shard `n`'s, place `16 + n` router `n`'s; all are at their places again after
    // the call.
    requires disks { vec_len disks.old ≡ 24 }
    // The words are refused exactly where they are no command.
    ensures bad_words { (index : ℕ) → (result ≡ Status.BadWords index)
        ↔ (word_at_fault (map string_bytes words.now) ≡ Some index) }
    // What was read was played over a cluster, and what its clients were answered is right.
    ensures played { word_at_fault (map string_bytes words.now) ≡ None
        → WhereKnown (S.left src.old) (λ input. IsPlayed ((d : D) → IsTrue (D.tells d)) input
        (K.held out.old) (K.held out.new) result) }
    ensures at_end { result ≡ Status.Ok
        → WhereKnown (S.left src.old) (λ input. S.left src.new ≡ Some []) }
    ensures disks { vec_len disks.new ≡ 24 }
    ensures unread { IsUnread result → K.held out.new ≡ K.held out.old }
    // A fault is answered only where that object's count rose in this call.
    ensures read_fault { result ≡ Status.ReadFault
        → Rose (S.fault_count src.old) (S.fault_count src.new) }
    ensures write_fault { result ≡ Status.WriteFault
        → Rose (K.fault_count out.old) (K.fault_count out.new) }
{
    match words {
        [] => Status::BadWords { index: 0 },
        [word] if word.as_str() == "play" => play(alloc, src, out, disks),
        [word, ..] if word.as_str() == "play" => Status::BadWords { index: 1 },
        _ => Status::BadWords { index: 0 },
    }
}
