ghost use Rattle.std.specs.Prelude.{◌≡◌, ◌+◌};
ghost use Rattle.txn_semantics.specs.Meaning.{capped};

/// Counts stand still here, at 2^63 - 1.
const MOST: u64 = 0x7fff_ffff_ffff_ffff;

/// A sum that stands still at 2^63 - 1.
pub fn counted(total: u64, more: u64) -> u64
    ensures { result ≡ capped (total + more) }
{
    total.saturating_add(more).min(MOST)
}
