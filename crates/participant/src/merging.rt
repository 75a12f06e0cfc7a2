ghost use Rattle.std.specs.Prelude.{◌≡◌, map, IfOk};
ghost use Rattle.txn_semantics.specs.Writes.{place_of};

use sqlite_items::Items;
use std::alloc::{AllocError, Global};
use txn_types::Write;
use version_store::{Key, Keys};
use write_sets::key_of;

/// The keys of the writes, in their order.
pub fn keys_of(alloc: Global, writes: &[Write]) -> Result<Keys, AllocError>
    ensures { IfOk result (λ keys. keys ≡ map place_of writes.now) }
{
    let mut keys = Vec::new(alloc);
    for write in writes {
        keys.push(key_of(alloc, write)?)?;
    }
    Ok(Items::from_vec(keys))
}

/// Copies of the keys.
pub fn copied_keys(alloc: Global, keys: &[Key]) -> Result<Keys, AllocError>
    ensures { IfOk result (λ copies. copies ≡ keys.now) }
{
    let mut copies = Vec::new(alloc);
    for key in keys {
        copies.push(key.copy(alloc)?)?;
    }
    Ok(Items::from_vec(copies))
}
