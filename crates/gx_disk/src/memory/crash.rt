//! What a crash might have left of a host in memory.

ghost use Rattle.std.specs.Prelude.{◌≡◌, ◌≤◌, IfOk};
ghost use Rattle.gx_disk.specs.Events.{Leaves, until, said_of};
ghost use Rattle.gx_disk.specs.Picks.{picked};
ghost use Rattle.gx_disk.specs.MemoryHosts.{host_start, host_events, host_since};

use super::MemoryHost;
use crate::image::{Image, Pick};
use crate::replay::{kept_until, replay};
use gx_bytes::{Bytes, NoMemory};
use std::alloc::Global;

impl MemoryHost {
    /// One image that a crash after this many disk calls might have left: of those, the one that `pick` takes.
    pub fn image(&self, alloc: Global, calls: u64, pick: Pick) -> Result<Image, NoMemory>
        requires { calls ≤ self.now.calls }
        ensures picked { IfOk result (λ i. record { pages = i.pages; log = i.log } ≡ picked pick (host_start self.now) (until calls (host_events self.now))) }
        ensures leaves { IfOk result (λ i. Leaves (host_start self.now) (until calls (host_events self.now)) (record { pages = i.pages; log = i.log })) }
        ensures moment { IfOk result (λ i. host_since self.now 0 (record { image = record { pages = i.pages; log = i.log }; bytes = said_of (until calls (host_events self.now)) })) }
    {
        let left = replay(alloc, &self.start, kept_until(&self.events, calls), pick)?;
        let pages = Bytes::from_slice(alloc, &left.pages)?;
        let log = Bytes::from_slice(alloc, &left.log)?;
        Ok(Image { pages, log })
    }
}
