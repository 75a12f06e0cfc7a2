//! Which file is whose: the journals of a folder.
ghost use Rattle.std.specs.Prelude.{◌≡◌, ◌≤◌, IfOk, OnOk, string_bytes, vec_len};
ghost use Rattle.mtx_durable.specs.Files.{path_of, router_path, shard_path};

use cluster_conf::ROUTERS_AT;
use outside_std::FileDisk;
use std::alloc::{AllocError, Global};
use std::fs::File;
use std::rt::Files;

/// How many files there may be: those of 16 shards, and behind them those of 8 routers.
const FILES: usize = 24;

/// The path of a shard's file.
fn shard_path(alloc: Global, folder: &str, shard: usize) -> Result<String, AllocError>
    ensures { IfOk result (λ path. string_bytes path ≡ shard_path folder.now shard) }
{
    format!(in alloc; "{folder}/shard-{shard}.journal")
}

/// The path of a router's file.
fn router_path(alloc: Global, folder: &str, router: usize) -> Result<String, AllocError>
    ensures { IfOk result (λ path. string_bytes path ≡ router_path folder.now router) }
{
    format!(in alloc; "{folder}/router-{router}.journal")
}

/// The path of the file at that place.
fn path_of(alloc: Global, folder: &str, place: usize) -> Result<String, AllocError>
    ensures { IfOk result (λ path. string_bytes path ≡ path_of folder.now place) }
{
    if place < ROUTERS_AT {
        shard_path(alloc, folder, place)
    } else {
        router_path(alloc, folder, place - ROUTERS_AT)
    }
}

/// Puts the files of a folder behind those that are there, until there are 24.
fn put_files<R: Files<File = File> + Drop + Copy>(
    alloc: Global,
    rt: R,
    folder: &str,
    disks: &mut Vec<FileDisk<R>>,
) -> Result<(), AllocError>
    requires { vec_len disks.old ≤ 24 }
    ensures { OnOk result (vec_len disks.new ≡ 24) }
{
    while disks.len() < FILES {
        let Ok(path) = path_of(alloc, folder, disks.len()) else {
            return Err(AllocError);
        };
        disks.push(FileDisk::at(rt, path))?;
    }
    Ok(())
}

/// The files in a folder of all nodes that there may be. Each is made or opened once its node
/// starts.
pub fn files_in<R: Files<File = File> + Drop + Copy>(
    alloc: Global,
    rt: R,
    folder: &str,
) -> Result<Vec<FileDisk<R>>, AllocError>
    ensures { IfOk result (λ disks. vec_len disks ≡ 24) }
{
    let mut disks = Vec::new(alloc);
    put_files(alloc, rt, folder, &mut disks)?;
    Ok(disks)
}
