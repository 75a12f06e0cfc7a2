//! Places of a list.
ghost use Rattle.std.specs.Prelude.{◌≡◌, ◌<◌, ◌≤◌, Some, Ok, Err, slice_get, slice_set, insert, remove, length, vec_len, vec_capacity, IfErr, OnOk};

/// Puts in place of an item the one that is made of it. At a refusal the old one is gone.
pub fn swap_in<T, E, F: FnOnce(T) -> Result<T, E>>(
    list: &mut Vec<T>,
    place: usize,
    next: F,
) -> Result<(), E>
    requires within { place < length list.old.items }
    requires next { (before : T) → slice_get list.old.items place ≡ Some before
        → F.pre next before }
    ensures ok { OnOk result ((before : T) × (after : T)
        × (slice_get list.old.items place ≡ Some before) × F.post next before (Ok after)
        × (list.new.items ≡ slice_set list.old.items place after)) }
    ensures err { IfErr result (λ e. (before : T) × (slice_get list.old.items place ≡ Some before)
        × F.post next before (Err e)
        × (list.new.items ≡ remove list.old.items place)) }
{
    match next(list.remove(place)) {
        Ok(item) => {
            put_in(list, place, item);
            Ok(())
        }
        Err(error) => Err(error),
    }
}

/// Puts an item at its place in a list that has room for it.
fn put_in<T>(list: &mut Vec<T>, place: usize, item: T)
    requires room { vec_len list.old < vec_capacity list.old }
    requires within { place ≤ vec_len list.old }
    ensures { list.new.items ≡ insert list.old.items place item }
{
    match list.insert(place, item) {
        Ok(()) => {}
        Err(_) => unreachable!(),
    }
}
