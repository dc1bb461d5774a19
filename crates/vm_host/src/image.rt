//! A disk image: a byte list that is written in sectors of 512 bytes.
ghost use Rattle.std.specs.Prelude.{◌*◌, ◌+◌, ◌≤◌, length, OnOk};
ghost use Rattle.vm_host.specs.Told.{WhereTold};
ghost use Rattle.vm_host.specs.Counts.{Counted, RoseOnOk};
ghost use Rattle.vm_host.specs.Files.{Holds};
ghost use Rattle.vm_host.specs.Leaves.{WritesSector, LeavesImage};
ghost use Rattle.vm_host.specs.Views.{ImageView};

use thiserror::Error;

/// A write to an image or a sync failed. The image's count of faults rose.
#[derive(Clone, Copy, Debug, PartialEq, Eq, Error)]
#[error("the disk image failed")]
pub struct ImageFault;

/// A disk image that a host handed out: whole sectors of 512 bytes.
pub trait Image {
    /// What clauses see of it: whether it tells its bytes, which no call changes, the bytes, and the
    /// counts of faults and syncs, which stand still at 2^64 - 1.
    ghost seen: { Self → ImageView };

    /// Replaces one sector, counted from 0, which must be inside where the bytes are told.
    ///
    /// After `ImageFault`, which raises `faults`, that sector may hold any bytes. All others stay
    /// in either case.
    fn write_at(&mut self, sector: u64, bytes: &[u8; 512]) -> Result<(), ImageFault>
        requires { WhereTold (seen self.old).tells (512 * sector + 512 ≤ length (seen self.old).content) }
        ensures written { WhereTold (seen self.old).tells
            (OnOk result (Holds (seen self.old).content (512 * sector) bytes.now (seen self.new).content)) }
        ensures leaves { WritesSector sector (seen self.old) (seen self.new) }
        ensures cause { Counted (seen self.old).faults (seen self.new).faults result };

    /// Makes sure that what was written lasts, and changes no byte.
    ///
    /// It raises `syncs` where it succeeds, and `faults` where it answers `ImageFault`.
    fn sync(&mut self) -> Result<(), ImageFault>
        ensures leaves { LeavesImage (seen self.old) (seen self.new) }
        ensures cause { Counted (seen self.old).faults (seen self.new).faults result }
        ensures syncs { RoseOnOk (seen self.old).syncs (seen self.new).syncs result };
}
