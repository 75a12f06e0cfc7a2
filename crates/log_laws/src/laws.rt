//! A law is the contract of a function with an empty body.
ghost use Rattle.std.specs.Prelude.{◌≡◌, ◌⊎◌, ◌++◌, ℕ, List, Option};
ghost use Rattle.journal_core.specs.Left.{Leaves};
ghost use Rattle.journal_rec.specs.declared.record.Rec.{Rec};
ghost use Rattle.record_store.specs.Found.{FoundIn};
ghost use Rattle.record_store.specs.Logged.{AreOf, listed, payload_in};
ghost use Rattle.log_laws.specs.Fitting.{AllFit, HandFits};

/// In a file that a crash leaves of a log, a start finds the log's records, or these and the one in
/// hand, where each field of these records fits its bytes.
pub fn what_is_left_is_found()
    ensures { (payloads : List (List ℕ)) (recs found : List Rec) (hand : Option Rec) (file : List ℕ)
        → AreOf payloads recs → Leaves payloads (payload_in hand) file → AllFit recs → HandFits hand
        → FoundIn (Unit {0}) file found → (found ≡ recs) ⊎ (found ≡ recs ++ listed hand) }
{}
