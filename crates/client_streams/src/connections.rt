//! The connections that bytes came on.
use crate::connection::{Connection, Turn};
use bson_core::Bytes;
use std::alloc::{AllocError, Global};
use std::marker::Model;
use std::mem;

/// The connections that bytes came on, in the order in which they first came.
#[derive(Drop)]
pub struct Connections {
    alloc: Global,
    all: Vec<Connection>,
}

impl Model for Connections {
    ghost use Rattle.std.specs.Prelude.{List};
    ghost use Rattle.client_streams.specs.Streams.{Connection};

    ghost Value = { List Connection };

    ghost view = { λ c. c.all.items };
}

impl Connections {
    ghost use Rattle.std.specs.Prelude.{◌≡◌, ◌<◌, ◌%◌, ◌⊎◌, [], ◌++◌, drop, filter, not, nat_eq, position, option_to_list, IfOk, OnOk};
    ghost use Rattle.client_streams.specs.Streams.{Connection, fresh, fed, connection_in, with_connection};
    ghost use Rattle.client_streams.specs.Turns.{turn_of, taken_from, answered_in};

    /// No connection.
    pub fn new(alloc: Global) -> Connections
        ensures { result ≡ [] }
    {
        Connections {
            alloc,
            all: Vec::new(alloc),
        }
    }

    /// Where that connection stands.
    fn place_of(&self, conn: u32) -> Option<usize>
        ensures { result ≡ position (λ (c : Connection). nat_eq c.conn conn) self.now }
    {
        self.all.iter().position(|connection| connection.is(conn))
    }

    /// Puts a connection at its place, or after the others.
    fn put(&mut self, connection: Connection) -> Result<(), AllocError>
        ensures { OnOk result (self.new ≡ with_connection connection self.old) }
    {
        match self.place_of(connection.number()) {
            Some(place) => self.all[place] = connection,
            None => self.all.push(connection)?,
        }
        Ok(())
    }

    /// The bytes and the waiting messages of a connection are dropped.
    pub fn shut(&mut self, conn: u32) -> Result<(), AllocError>
        ensures { OnOk result (self.new ≡ with_connection (fresh conn) self.old) }
    {
        self.put(Connection::new(self.alloc, conn))
    }

    /// Takes a connection out, and leaves a fresh one.
    fn take(&mut self, conn: u32) -> Result<Connection, AllocError>
        ensures taken { IfOk result (λ c. c ≡ connection_in self.old conn) }
        ensures rest { OnOk result
            ((self.new ≡ self.old) ⊎ (self.new ≡ with_connection (fresh conn) self.old)) }
    {
        let fresh = Connection::new(self.alloc, conn);
        match self.place_of(conn) {
            Some(place) => Ok(mem::replace(&mut self.all[place], fresh)),
            None => Ok(fresh),
        }
    }

    /// Bytes come on a connection.
    pub fn feed(&mut self, conn: u32, bytes: &[u8]) -> Result<(), AllocError>
        ensures { OnOk result
            (self.new ≡ with_connection (fed (connection_in self.old conn) bytes.now) self.old) }
    {
        let mut connection = self.take(conn)?;
        connection.feed(self.alloc, bytes)?;
        self.put(connection)?;
        Ok(())
    }

    /// What is served next on a connection.
    pub fn turn(&self, conn: u32) -> Turn
        ensures { result ≡ turn_of (connection_in self.now conn) }
    {
        match self.place_of(conn) {
            Some(place) => self.all[place].turn(),
            None => Turn::Nothing,
        }
    }

    /// Takes the message of a connection that has waited longest; it is unanswered until its reply
    /// comes.
    pub fn give(&mut self, conn: u32) -> Result<Option<Bytes>, AllocError>
        ensures message { IfOk result (λ m. (connection_in self.old conn).waiting
            ≡ option_to_list m ++ drop 1 (connection_in self.old conn).waiting) }
        ensures rest { OnOk result
            (self.new ≡ with_connection (taken_from (connection_in self.old conn)) self.old) }
    {
        let mut connection = self.take(conn)?;
        let message = connection.give();
        self.put(connection)?;
        Ok(message)
    }

    /// The message that was unanswered is answered, or wants no reply.
    pub fn answered(&mut self, conn: u32) -> Result<(), AllocError>
        ensures { OnOk result
            (self.new ≡ with_connection (answered_in (connection_in self.old conn)) self.old) }
    {
        let mut connection = self.take(conn)?;
        connection.answer();
        self.put(connection)?;
        Ok(())
    }

    /// Drops the connections of a router: those whose number leaves the router's over the number of
    /// routers.
    pub fn drop_of(&mut self, router: u16, routers: u16)
        requires { 0 < routers }
        ensures { self.new
            ≡ filter (λ (c : Connection). not (nat_eq (c.conn % routers) router)) self.old }
    {
        self.all.retain(|connection| connection.number() % u32::from(routers) != u32::from(router));
    }
}
