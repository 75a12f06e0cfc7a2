ghost use Rattle.std.specs.Prelude.{◌≡◌};
ghost use Rattle.toml.specs.View.{table_view};
ghost use Rattle.chunk_map.specs.Map.{map_of};
ghost use Rattle.cluster_conf.specs.Conf.{Gives, as_map, settings_of};
ghost use Rattle.cluster_conf.specs.declared.conf.ConfErr.TheVariants.{Memory};

use crate::chunks::chunks_at;
use crate::fields::{count_at, listen_at, only_known};
use crate::lists::{Texts, addresses_at, copy_texts};
use bson_core::Text;
use chunk_map::{ChunkMap, MapErr};
use std::alloc::{AllocError, AllocFailed, Global};
use std::marker::Model;
use toml::Table;

/// How many shards a cluster may have.
pub const MOST_SHARDS: u16 = 16;

/// How many routers a cluster may have.
pub const MOST_ROUTERS: u16 = 8;

/// How many chunk rows a configuration may have.
pub const MOST_CHUNKS: usize = 1000;

/// Where a router listens that doesn't say it.
pub const LISTEN: &str = "127.0.0.1:27017";

/// The place of router 0's disk among a program's disks; shard 0's is 0.
pub const ROUTERS_AT: usize = 16;

/// Why a text is no configuration.
#[derive(Drop)]
pub enum ConfErr {
    /// It isn't TOML.
    NotToml,
    /// That key is of the wrong kind or out of range, is missing where it must be, or isn't known.
    Key { name: Text },
    /// The chunk rows make no map.
    Map(MapErr),
    /// There was no memory.
    Memory,
}

impl From<AllocError> for ConfErr {
    ghost from_gives = { λ _ e. e ≡ Memory };

    fn from(_e: AllocError) -> ConfErr {
        ConfErr::Memory
    }
}

impl<T: Drop> From<AllocFailed<T>> for ConfErr {
    ghost from_gives = { λ _ e. e ≡ Memory };

    fn from(_e: AllocFailed<T>) -> ConfErr {
        ConfErr::Memory
    }
}

/// A configuration: 1 to 16 shards, 1 to 8 routers, the map of chunks over the shards, where the
/// cluster listens, and the addresses of its shards and routers: one for each, or none.
#[derive(Drop)]
pub struct Conf {
    shards: u16,
    routers: u16,
    map: ChunkMap,
    listen: Text,
    shard_at: Texts,
    router_at: Texts,
}

impl Model for Conf {
    ghost use Rattle.cluster_conf.specs.Conf.{Settings, IsSettings};

    ghost Value = { Settings };

    ghost view = { λ c. record { shards = c.shards; routers = c.routers; map = c.map; listen = c.listen; shard_at = c.shard_at; router_at = c.router_at } };

    ghost invariant = { λ c. IsSettings (record { shards = c.shards; routers = c.routers; map = c.map; listen = c.listen; shard_at = c.shard_at; router_at = c.router_at }) };
}

/// The map of the rows.
fn map_of(shards: u16, rows: Vec<chunk_map::ChunkRow>) -> Result<ChunkMap, ConfErr>
    ensures { result ≡ as_map (map_of shards rows.items) }
{
    match ChunkMap::new(shards, rows) {
        Ok(map) => Ok(map),
        Err(fault) => Err(ConfErr::Map(fault)),
    }
}

/// What the table says.
fn settings_of(alloc: Global, table: &Table) -> Result<Conf, ConfErr>
    ensures { Gives (λ c. c) result (settings_of (table_view table.now)) }
{
    let shards = count_at(alloc, table, "shards", MOST_SHARDS)?;
    let routers = count_at(alloc, table, "routers", MOST_ROUTERS)?;
    let listen = listen_at(alloc, table)?;
    let shard_at = addresses_at(alloc, table, "shard_at", shards)?;
    let router_at = addresses_at(alloc, table, "router_at", routers)?;
    let rows = chunks_at(alloc, table)?;
    only_known(alloc, table)?;
    let map = map_of(shards, rows)?;
    Ok(Conf {
        shards,
        routers,
        map,
        listen,
        shard_at,
        router_at,
    })
}

impl Conf {
    ghost use Rattle.std.specs.Prelude.{◌≡◌, IfOk, IfErr};
    ghost use Rattle.cluster_conf.specs.Conf.{Gives, IsSettings, conf_of, plain};
    ghost use Rattle.cluster_conf.specs.declared.conf.ConfErr.TheVariants.{Memory};

    /// The configuration that the text is, in TOML. Otherwise the first of these refusals is
    /// answered: `NotToml`; `Key` with the first key at fault, in the order shards, routers,
    /// listen, shard_at, router_at, chunk (and in a row ns, shard, from, unknown keys), and then
    /// the first unknown key by its bytes; `Map` with what is wrong with the rows.
    pub fn read(alloc: Global, text: &str) -> Result<Conf, ConfErr>
        ensures { Gives (λ c. c) result (conf_of text.now) }
    {
        match toml::table_from_str(alloc, text) {
            Ok(table) => settings_of(alloc, &table),
            Err(error) => {
                if error.is_memory() {
                    Err(ConfErr::Memory)
                } else {
                    Err(ConfErr::NotToml)
                }
            }
        }
    }

    /// One shard, one router and no rows. It is refused only out of memory.
    pub fn plain(alloc: Global) -> Result<Conf, ConfErr>
        ensures ok { IfOk result (λ c. c ≡ plain) }
        ensures err { IfErr result (λ e. e ≡ Memory) }
    {
        let listen = Text::new(String::from_str(alloc, LISTEN)?);
        match ChunkMap::new(1, Vec::new(alloc)) {
            Ok(map) => Ok(Conf {
                shards: 1,
                routers: 1,
                map,
                listen,
                shard_at: Texts::new(alloc),
                router_at: Texts::new(alloc),
            }),
            Err(_fault) => Err(ConfErr::Memory),
        }
    }

    /// How many shards there are: 1 to 16.
    pub fn shards(&self) -> u16
        ensures value { result ≡ self.now.shards }
        // What holds of each configuration.
        ensures settings { IsSettings self.now }
    {
        self.shards
    }

    /// How many routers there are: 1 to 8.
    pub fn routers(&self) -> u16
        ensures { result ≡ self.now.routers }
    {
        self.routers
    }

    /// Which shard keeps which documents; it is over `shards()` shards.
    pub fn map(&self) -> &ChunkMap
        ensures map { result.now ≡ self.now.map }
        ensures shards { self.now.map.shards ≡ self.now.shards }
    {
        &self.map
    }

    /// Where `mtx cluster` listens.
    pub fn listen(&self) -> &str
        ensures { result.now ≡ self.now.listen }
    {
        self.listen.as_str()
    }

    /// The addresses of the shards: one for each, or none.
    pub fn shard_at(&self) -> &[Text]
        ensures { result.now ≡ self.now.shard_at }
    {
        self.shard_at.as_slice()
    }

    /// The addresses of the routers: one for each, or none.
    pub fn router_at(&self) -> &[Text]
        ensures { result.now ≡ self.now.router_at }
    {
        self.router_at.as_slice()
    }

    pub fn copy(&self, alloc: Global) -> Result<Conf, AllocError>
        ensures { IfOk result (λ c. c ≡ self.now) }
    {
        Ok(Conf {
            shards: self.shards,
            routers: self.routers,
            map: self.map.copy(alloc)?,
            listen: self.listen.copy(alloc)?,
            shard_at: copy_texts(alloc, &self.shard_at)?,
            router_at: copy_texts(alloc, &self.router_at)?,
        })
    }
}
