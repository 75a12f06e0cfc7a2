ghost use Rattle.std.specs.Prelude.{◌≡◌, ◌%◌, ◌^◌, [], Some, None, OnOk, IfSome, MatchOption};

use bson_core::{BsonErr, Doc, encode};
use std::alloc::{AllocError, Global};
use std::marker::Model;

/// No message has more bytes in `b`.
const MOST: usize = 399_999_944;

/// The bytes of `b` that were written. Contracts see the bytes; or none, once they were more than a
/// message may have. Then no more are kept.
#[derive(Drop)]
pub struct Output {
    bytes: Vec<u8>,
    full: bool,
}

impl Model for Output {
    ghost use Rattle.std.specs.Prelude.{List, ℕ, Option, Some, None, if◌then◌else◌};

    ghost Value = { Option (List ℕ) };

    ghost view = { λ o. if o.full then None else Some o.bytes.items };
}

impl Output {
    ghost use Rattle.bson_core.specs.Spelling.{spelling};
    ghost use Rattle.node_wire.specs.Output.{joined};

    pub fn new(alloc: Global) -> Output
        ensures { result ≡ Some [] }
    {
        Output {
            bytes: Vec::new(alloc),
            full: false,
        }
    }

    /// The bytes, or none where they are more than a message may have.
    pub fn finish(self) -> Option<Vec<u8>>
        ensures { MatchOption result (self ≡ None) (λ v. self ≡ Some v.items) }
    {
        if self.full { None } else { Some(self.bytes) }
    }

    /// More was written than a message may have.
    pub fn fill(&mut self)
        ensures { self.new ≡ None }
    {
        self.full = true;
    }

    #[tactic(auto, unfolding(crate::specs::Output::joined, crate::specs::Output::within))]
    pub fn put(&mut self, bytes: &[u8]) -> Result<(), AllocError>
        ensures { OnOk result (self.new ≡ joined self.old bytes.now) }
    {
        if self.full || bytes.is_empty() {
            return Ok(());
        }
        if self.bytes.len() + bytes.len() > MOST {
            self.full = true;
            return Ok(());
        }
        self.bytes.extend_from_slice(bytes)
    }

    /// A document, which is written into bytes of its own first.
    #[tactic(auto, using(crate::proofs::Joined::long_document))]
    pub fn put_document(&mut self, alloc: Global, doc: &Doc) -> Result<(), AllocError>
        ensures { OnOk result (self.new ≡ joined self.old (spelling doc.now)) }
    {
        let mut bytes = Vec::new(alloc);
        match encode(alloc, doc, &mut bytes) {
            Ok(()) => self.put(bytes.as_slice()),
            Err(BsonErr::TooLarge) => {
                self.fill();
                Ok(())
            }
            Err(_) => Err(AllocError),
        }
    }
}
