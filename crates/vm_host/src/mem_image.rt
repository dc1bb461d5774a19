//! A disk image in memory.
ghost use Rattle.std.specs.Prelude.{◌≡◌, ◌*◌, ◌+◌, ◌≤◌, ◌<◌, ◌↔◌, length, true, IsErr, OnOk, OnErr, IsTrue, if◌then◌else◌};
ghost use Rattle.vm_host.specs.Told.{WhereTold};
ghost use Rattle.vm_host.specs.Counts.{Counted, RoseOnOk};
ghost use Rattle.vm_host.specs.Files.{Holds};
ghost use Rattle.vm_host.specs.Leaves.{WritesSector, LeavesImage};
ghost use Rattle.vm_host.specs.MemState.{image_view, IsListed, is_listed, after_call, no_calls, one_more};

use crate::calls::Calls;
use crate::image::{Image, ImageFault};
use std::marker::Model;

/// A disk image in memory. It tells its bytes.
///
/// Its calls of [`Image`] are numbered from 0. One that is listed answers its fault and changes no
/// byte; no other call fails.
#[derive(Drop)]
pub struct MemImage {
    bytes: Vec<u8>,
    calls: Calls,
    syncs: u64,
}

impl Model for MemImage {
    ghost use Rattle.vm_host.specs.MemState.{ImageState};

    ghost Value = { ImageState };

    ghost view = { λ i. record { bytes = i.bytes.items; calls = i.calls; syncs = i.syncs } };
}

impl MemImage {
    /// An image of these bytes, of which the calls of these numbers are to fail.
    pub(crate) fn new(bytes: Vec<u8>, failing: Vec<u64>) -> MemImage
        ensures { result ≡ record { bytes = bytes.items; calls = no_calls failing.items; syncs = 0 } }
    {
        MemImage {
            bytes,
            calls: Calls::failing_at(failing),
            syncs: 0,
        }
    }

    /// Takes the number of a call, and counts a fault where it is listed.
    fn call_fails(&mut self) -> bool
        ensures listed { result ≡ is_listed self.old.calls }
        ensures after { self.new ≡ record self.old { calls = after_call result self.old.calls } }
    {
        self.calls.next_fails()
    }

    /// Whether one of its calls has failed.
    pub(crate) fn has_failed(&self) -> bool
        ensures { IsTrue result ↔ (0 < self.now.calls.faults) }
    {
        self.calls.has_failed()
    }

    /// Its bytes.
    pub(crate) fn into_bytes(self) -> Vec<u8>
        ensures { result.items ≡ self.bytes }
    {
        self.bytes
    }
}

/// Puts 512 bytes over the bytes from this offset on.
fn put_sector(bytes: &mut Vec<u8>, at: usize, sector: &[u8; 512])
    requires { at + 512 ≤ length bytes.old.items }
    ensures { Holds bytes.old.items at sector.now bytes.new.items }
{
    let place = &mut bytes[at..at + 512];
    place.copy_from_slice(sector);
}

impl Image for MemImage {
    ghost seen = { image_view };

    #[tactic(auto, using(crate::proofs::Sectors::holds_same))]
    fn write_at(&mut self, sector: u64, bytes: &[u8; 512]) -> Result<(), ImageFault>
        requires { WhereTold true (512 * sector + 512 ≤ length self.old.bytes) }
        ensures listed { IsListed self.old.calls
            → IsErr result × (self.new ≡ record self.old { calls = after_call true self.old.calls }) }
        ensures unlisted { OnErr result (IsListed self.old.calls) }
        ensures numbered { self.new.calls ≡ after_call (is_listed self.old.calls) self.old.calls }
        ensures written { WhereTold true
            (OnOk result (Holds self.old.bytes (512 * sector) bytes.now self.new.bytes)) }
        ensures leaves { WritesSector sector (image_view self.old) (image_view self.new) }
        ensures cause { Counted self.old.calls.faults self.new.calls.faults result }
    {
        if self.call_fails() {
            return Err(ImageFault);
        }
        put_sector(&mut self.bytes, 512 * sector as usize, bytes);
        Ok(())
    }

    fn sync(&mut self) -> Result<(), ImageFault>
        ensures listed { IsListed self.old.calls
            → IsErr result × (self.new ≡ record self.old { calls = after_call true self.old.calls }) }
        ensures unlisted { OnErr result (IsListed self.old.calls) }
        ensures numbered { self.new.calls ≡ after_call (is_listed self.old.calls) self.old.calls }
        ensures leaves { LeavesImage (image_view self.old) (image_view self.new) }
        ensures cause { Counted self.old.calls.faults self.new.calls.faults result }
        ensures syncs { RoseOnOk self.old.syncs self.new.syncs result }
    {
        if self.call_fails() {
            return Err(ImageFault);
        }
        self.syncs = self.syncs.saturating_add(1);
        Ok(())
    }
}
