ghost use Rattle.std.specs.Prelude.{◌≡◌};
ghost use Rattle.shard_image.specs.declared.image.ImageErr.TheVariants.{Memory};

use coordinator::Coord;
use session_table::Sessions;
use std::alloc::{AllocError, AllocFailed};
use std::marker::Model;
use txn_types::Ts;
use version_store::{Pendings, Store};

/// Why a record isn't taken.
#[derive(Clone, Copy)]
pub enum ImageErr {
    /// The record of this number, the first being 0, can't follow the earlier ones.
    BadOrder { index: u64 },
    /// There was no memory.
    Memory,
}

impl From<AllocError> for ImageErr {
    ghost from_gives = { λ _ e. e ≡ Memory };

    fn from(_e: AllocError) -> ImageErr {
        ImageErr::Memory
    }
}

impl<T: Drop> From<AllocFailed<T>> for ImageErr {
    ghost from_gives = { λ _ e. e ≡ Memory };

    fn from(_e: AllocFailed<T>) -> ImageErr {
        ImageErr::Memory
    }
}

/// What the rules on order ask of the earlier records beyond the rest of the state: how many there
/// were, and the greatest timestamp of a commit or a prepared transaction among them.
#[derive(Clone, Copy)]
pub struct Place {
    pub count: u64,
    pub greatest: Ts,
}

/// The state that records leave. Each of them could follow the earlier ones.
#[derive(Drop)]
pub struct Image {
    /// The last boot; 0 where there is no record.
    pub boot: u32,
    /// The last ceiling; 0 where there is none.
    pub ceiling: Ts,
    pub store: Store,
    pub sessions: Sessions,
    pub pending: Pendings,
    pub coord: Coord,
    pub place: Place,
}

impl Model for Image {
    ghost use Rattle.std.specs.Coded.{codes};
    ghost use Rattle.bson_core.specs.contracts.value.Value as value;
    ghost use Rattle.shard_image.specs.Image.{Image};

    ghost Value = { Image };

    ghost coded = { Prim.hlevel (codes, value.the_row.coded) };

    ghost use Rattle.shard_image.specs.Sound.{IsImage};

    ghost view = { λ i. record { boot = i.boot; ceiling = i.ceiling; store = i.store; sessions = i.sessions; pending = i.pending; coord = i.coord; count = i.place.count; greatest = i.place.greatest } };

    ghost invariant = { λ i. IsImage (record { boot = i.boot; ceiling = i.ceiling; store = i.store; sessions = i.sessions; pending = i.pending; coord = i.coord; count = i.place.count; greatest = i.place.greatest }) };
}
