//! A law is the contract of a function with an empty body.
ghost use Rattle.std.specs.Prelude.{◌≡◌, Ok};
ghost use Rattle.journal_rec.specs.declared.record.Rec.{Rec};
ghost use Rattle.journal_rec.specs.Reading.{record_of};
ghost use Rattle.journal_rec.specs.Spelling.{record_bytes};
ghost use Rattle.record_laws.specs.Fits.{RecordFits};

/// What is written of a record is read as itself, where each field fits its bytes, each document
/// has at most 100 levels and a length that is an int32, and the writes rise.
pub fn what_is_written_is_read()
    ensures { (r : Rec) → RecordFits r → record_of (record_bytes r) ≡ Ok r }
{}

/// Bytes are those of one record at most.
pub fn records_are_told_apart()
    ensures { (a b : Rec) → RecordFits a → RecordFits b → record_bytes a ≡ record_bytes b → a ≡ b }
{}
