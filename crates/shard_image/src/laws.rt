//! Laws of the state that records leave: a law is the contract of a function with an empty body.
ghost use Rattle.std.specs.Prelude.{◌≡◌, List, None, true};
ghost use Rattle.journal_rec.specs.Follows as journal;
ghost use Rattle.journal_rec.specs.declared.record.Rec.{Rec};
ghost use Rattle.shard_image.specs.Image.{Image, with_record, image_of, ledger_of, can_follow_image};
ghost use Rattle.shard_image.specs.Sound.{IsImage, IsWritten, AreWritten};

/// What is counted of a state after a record that can follow is what is counted after it of the
/// records, and the state stays of one piece; so of a list of records each of which can follow
/// those before it.
pub fn a_record_is_counted()
    ensures step { (i : Image) (r : Rec) → IsImage i → IsWritten r → can_follow_image i r ≡ true
        → ledger_of (with_record i r) ≡ journal.with_record (ledger_of i) r }
    ensures keeps { (i : Image) (r : Rec) → IsImage i → IsWritten r → can_follow_image i r ≡ true
        → IsImage (with_record i r) }
    ensures all { (recs : List Rec) → AreWritten recs → journal.first_refused recs ≡ None
        → ledger_of (image_of recs) ≡ journal.ledger_of recs }
    ensures sound { (recs : List Rec) → AreWritten recs → journal.first_refused recs ≡ None
        → IsImage (image_of recs) }
{}
