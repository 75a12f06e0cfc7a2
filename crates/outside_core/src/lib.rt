//! The outside as traits, and their forms in memory. Each trait counts its failed calls, and says
//! what it has left or holds where it can tell.
#![tactic(auto)]

mod clock;
mod disk;
mod fuse;
mod fuse_disk;
mod job;
mod link;
mod memory_disk;
mod memory_error;
mod memory_net;
mod net;
mod pipe_link;
mod sink;
mod source;
mod spawner;

pub use clock::{Clock, MemClock};
pub use disk::{Disk, DiskErr};
pub use fuse::Fuse;
pub use fuse_disk::FuseDisk;
pub use job::{Gives, Job, Running, launch};
pub use link::{Link, LinkErr, send_all};
pub use memory_disk::{MemDisk, Past};
pub use memory_error::MemErr;
pub use memory_net::MemNet;
pub use net::{Net, NetErr};
pub use pipe_link::PipeLink;
pub use sink::{MemSink, Sink, SinkErr, write_all};
pub use source::{MemSource, Source, SourceErr};
pub use spawner::{SpawnErr, Spawner};
