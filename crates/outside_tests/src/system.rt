ghost use Rattle.std.specs.Prelude.{◌≡◌, ◌*◌};

use outside_core::{
    Clock, Disk, DiskErr, Job, Link, MemClock, MemNet, Net, NetErr, PipeLink, Spawner,
};
use outside_std::{FileDisk, SystemClock, TcpNet, ThreadSpawner};
use std::fs;
use std::sync::Wait;
use std::test::Fail;

const FILE: &str = "outside_tests.journal";

const ADDRESS: &str = "127.0.0.1:47613";

#[test]
fn a_file_keeps_its_bytes(rt: HostRuntime) -> Result<(), Fail> {
    let mut disk = FileDisk::at(rt, String::from_str(rt.alloc(), FILE)?);
    disk.cut(0)?;
    disk.write_at(0, b"hello")?;
    disk.sync()?;
    disk.cut(4)?;
    assert_eq!(rt; disk.len()?, 4);
    let mut out = [7u8; 5];
    assert_eq!(rt; disk.read_at(1, &mut out)?, 3);
    assert_eq!(rt; out.as_slice(), b"ell\x07\x07".as_slice());
    assert_eq!(rt; disk.read_at(9, &mut out)?, 0);
    assert_eq!(rt; disk.faults(), 0);
    // A place and a length that don't fit a u64 together.
    assert_eq!(rt; disk.write_at(u64::MAX, b"x"), Err(DiskErr::Failed));
    assert_eq!(rt; disk.faults(), 1);
    fs::remove_file(&rt, FILE)?;
    Ok(())
}

#[test]
fn a_link_carries_bytes_until_it_is_shut(rt: HostRuntime) -> Result<(), Fail> {
    let mut net = TcpNet::new(rt);
    assert!(rt; net.accept().is_err());
    net.listen(ADDRESS)?;
    let mut other = TcpNet::new(rt);
    let mut near = other.connect(ADDRESS)?;
    let mut far = net.accept()?;
    assert_eq!(rt; near.send(b"ping")?, 4);
    let mut got = Vec::new(rt.alloc());
    assert_eq!(rt; far.receive(100, &mut got)?, 4);
    assert_eq!(rt; got.as_slice(), b"ping".as_slice());
    // The shut wakes the peer.
    near.shut();
    assert_eq!(rt; far.receive(100, &mut got)?, 0);
    assert_eq!(rt; far.ends(), 1);
    assert_eq!(rt; (net.accepted(), net.faults()), (1, 1));
    assert_eq!(rt; (other.accepted(), other.faults()), (0, 0));
    Ok(())
}

#[test]
fn clocks_tell_a_moment(rt: HostRuntime) -> Result<(), Fail> {
    let mut clock = SystemClock::new(rt);
    let mut other = clock.fork()?;
    // September 2020.
    assert!(rt; clock.now() > 1_600_000_000);
    assert!(rt; other.now() > 1_600_000_000);
    let mut still = MemClock::at(5);
    assert_eq!(rt; still.fork()?.now(), 5);
    assert_eq!(rt; still.now(), 5);
    Ok(())
}

#[derive(Drop)]
struct Twice(u32);

impl Job for Twice {
    type Out = u64;

    ghost gives = { λ j out. out ≡ 2 * j.0 };

    fn go<R: Wait>(self, _rt: &R) -> u64 {
        u64::from(self.0) * 2
    }
}

#[test]
fn jobs_come_back_in_the_order_of_their_starts(rt: HostRuntime) -> Result<(), Fail> {
    let mut spawner = ThreadSpawner::new(rt, rt.alloc());
    spawner.start(Twice(4))?;
    spawner.start(Twice(5))?;
    assert_eq!(rt; spawner.gather(), Some(8));
    spawner.start(Twice(6))?;
    assert_eq!(rt; spawner.gather(), Some(10));
    assert_eq!(rt; spawner.gather(), Some(12));
    assert_eq!(rt; spawner.gather(), None);
    assert_eq!(rt;
        (spawner.started(), spawner.most(), spawner.faults()),
        (3, 2, 0)
    );
    Ok(())
}

#[test]
fn a_net_in_memory_gives_its_links_in_order(rt: HostRuntime) -> Result<(), Fail> {
    let alloc = rt.alloc();
    let mut links = Vec::new(alloc);
    links.push(PipeLink::of(alloc, vec![in alloc; 1]?, Vec::new(alloc)))?;
    links.push(PipeLink::of(alloc, vec![in alloc; 2]?, Vec::new(alloc)))?;
    let mut net = MemNet::of(links);
    net.listen("anywhere")?;
    let mut got = Vec::new(alloc);
    net.accept()?.receive(9, &mut got)?;
    net.accept()?.receive(9, &mut got)?;
    assert_eq!(rt; got.as_slice(), [1, 2].as_slice());
    assert_eq!(rt; net.accept().err(), Some(NetErr::Failed));
    assert_eq!(rt; (net.accepted(), net.faults()), (2, 1));
    Ok(())
}
