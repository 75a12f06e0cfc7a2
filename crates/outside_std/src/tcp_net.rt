ghost use Rattle.std.specs.Prelude.{◌≡◌, ◌≤◌};
ghost use Rattle.outcomes.specs.Causes.{Rose};

use crate::tcp_link::TcpLink;
use outside_core::{Net, NetErr};
use std::net;
use std::net::{TcpListener, TcpStream};

/// TCP over the system's sockets. It listens at one address, the last that it was told; before that
/// `accept` fails.
#[derive(Drop)]
pub struct TcpNet<R: net::Net<Listener = TcpListener, Stream = TcpStream> + Drop> {
    rt: R,
    listener: Option<TcpListener>,
    faults: u64,
    accepted: u64,
}

impl<R: net::Net<Listener = TcpListener, Stream = TcpStream> + Drop> TcpNet<R> {
    pub fn new(rt: R) -> TcpNet<R>
        ensures { (result.faults ≡ 0) × (result.accepted ≡ 0) }
    {
        TcpNet {
            rt,
            listener: None,
            faults: 0,
            accepted: 0,
        }
    }

    // Counts a fault.
    fn fail(&mut self) -> NetErr
        ensures later { self.old.faults ≤ self.new.faults }
        ensures rose { Rose self.old.faults self.new.faults }
        ensures accepted { self.new.accepted ≡ self.old.accepted }
    {
        self.faults = self.faults.saturating_add(1);
        NetErr::Failed
    }
}

impl<R: net::Net<Listener = TcpListener, Stream = TcpStream> + Drop> Net for TcpNet<R> {
    type L = TcpLink;

    ghost fault_count = { λ n. n.faults };

    ghost accept_count = { λ n. n.accepted };

    fn listen(&mut self, at: &str) -> Result<(), NetErr> {
        match TcpListener::bind(&self.rt, at) {
            Ok(listener) => {
                self.listener = Some(listener);
                Ok(())
            }
            Err(_) => Err(self.fail()),
        }
    }

    fn accept(&mut self) -> Result<TcpLink, NetErr> {
        let Some(listener) = &self.listener else {
            return Err(self.fail());
        };
        match listener.accept() {
            Ok((stream, _)) => {
                self.accepted = self.accepted.wrapping_add(1);
                Ok(TcpLink::of(stream))
            }
            Err(_) => Err(self.fail()),
        }
    }

    fn connect(&mut self, at: &str) -> Result<TcpLink, NetErr> {
        match TcpStream::connect(&self.rt, at) {
            Ok(stream) => Ok(TcpLink::of(stream)),
            Err(_) => Err(self.fail()),
        }
    }

    fn faults(&self) -> u64 {
        self.faults
    }

    fn accepted(&self) -> u64 {
        self.accepted
    }
}
