ghost use Rattle.std.specs.Prelude.{◌≡◌, filter, not};
ghost use Rattle.txn_types.specs.Order.{same_tag};

use crate::chain::is_same;
use crate::version::Pendings;
use txn_types::Tag;

/// Takes out the prepared transactions of the tag. It takes no memory.
pub fn forget(pendings: &mut Pendings, tag: &Tag)
    ensures { pendings.new ≡ filter (λ other. not (same_tag other.tag tag.now)) pendings.old }
{
    let mut place = 0;
    while let Some(pending) = pendings.get(place) {
        if is_same(&pending.tag, tag) {
            drop(pendings.remove(place));
        } else {
            let _count = pendings.len();
            place += 1;
        }
    }
}
