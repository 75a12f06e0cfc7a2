ghost use Rattle.std.specs.Prelude.{◌≡◌, false};
ghost use Rattle.std.specs.List.{list_any};
ghost use Rattle.participant.specs.Expiry.{expire};
ghost use Rattle.participant.specs.Stands.{is_older};

use crate::part::Participant;
use txn_types::Cause;

impl Participant {
    /// Whether a live transaction became live here more than 60 seconds before the wall. It takes
    /// no memory.
    pub fn has_expired(&self, wall: u32) -> bool
        ensures older { result ≡ list_any (is_older wall) self.now.live }
        ensures stays { result ≡ false → expire self.now wall ≡ self.now }
    {
        self.live.first_older(wall).is_some()
    }

    /// Ends each live transaction that became live here more than 60 seconds before the wall. It
    /// takes no memory.
    #[tactic(auto, unfolding(crate::specs::Expiry::expire))]
    pub fn expire(&mut self, wall: u32)
        ensures { self.new ≡ expire self.old wall }
    {
        while let Some((lsid, begun)) = self.live.first_older(wall) {
            self.end_live(&lsid, Cause::Expired { begun, now: wall });
        }
    }
}
