ghost use Rattle.std.specs.Prelude.{◌≡◌, ◌≤◌, ◌<◌, [], ◌∷◌, ◌++◌, length, IfOk, OnOk, OnErr};

use std::alloc::{AllocError, Global};
use std::marker::Model;

/// The participants of a transaction, each a shard and the boot at which it answered: at most
/// 65,535.
#[derive(Drop)]
pub struct Parts {
    parts: Vec<(u16, u32)>,
}

impl Model for Parts {
    ghost use Rattle.std.specs.Prelude.{List, ℕ, length, ◌≤◌};

    ghost Value = { List (ℕ × ℕ) };

    ghost view = { λ p. p.parts.items };

    ghost invariant = { λ p. length p.parts.items ≤ 65535 };
}

impl Parts {
    pub fn new(alloc: Global) -> Parts
        ensures { result ≡ [] }
    {
        Parts {
            parts: Vec::new(alloc),
        }
    }

    pub fn push(&mut self, shard: u16, boot: u32) -> Result<(), AllocError>
        requires { length self.old < 65535 }
        ensures ok { OnOk result (self.new ≡ self.old ++ (shard, boot) ∷ []) }
        ensures err { OnErr result (self.new ≡ self.old) }
    {
        self.parts.push((shard, boot))?;
        Ok(())
    }

    pub fn as_slice(&self) -> &[(u16, u32)]
        ensures parts { result.now ≡ self.now }
        ensures most { length self.now ≤ 65535 }
    {
        self.parts.as_slice()
    }

    pub fn copy(&self, alloc: Global) -> Result<Parts, AllocError>
        ensures { IfOk result (λ p. p ≡ self.now) }
    {
        Ok(Parts {
            parts: Vec::from_slice(alloc, self.parts.as_slice())?,
        })
    }
}
