//! A file system: files by name, which are read, made, written, synced, and lent as disk images.
ghost use Rattle.std.specs.Prelude.{◌≡◌, ◌≤◌, ◌<◌, true, List, [], ℕ, length, Some, None, IsSome, IfOk, IfSome, OnOk, IsErrOf, IsSomeAnd, OnErr};
ghost use Rattle.vm_host.specs.declared.host.HostFault.TheVariants.{Missing, Failed};
ghost use Rattle.vm_host.specs.Told.{WhereTold};
ghost use Rattle.vm_host.specs.Counts.{HasCause, SameCounts, RoseExactly};
ghost use Rattle.vm_host.specs.Crash.{AddsTorn, Only, Makes, ReadsNow, SinceEarlier};
ghost use Rattle.vm_host.specs.Files.{Written, ReadsFrom};
ghost use Rattle.vm_host.specs.Leaves.{ReadsHost, WritesFile, LeavesHost};
ghost use Rattle.vm_host.specs.Views.{HostView};

use crate::Image;
use std::alloc::{AllocError, AllocFailed, Global};
use thiserror::Error;
use vm_law::OutOfMemory;

/// Why a call on a host didn't succeed.
#[derive(Clone, Copy, Debug, PartialEq, Eq, Error)]
pub enum HostFault {
    /// No file has that name. The host's count of misses rose.
    #[error("no such file")]
    Missing,
    /// The file system refused. The host's count of faults rose.
    #[error("the file system failed")]
    Failed,
    /// Memory was refused.
    #[error("out of memory")]
    Memory,
}

impl From<AllocError> for HostFault {
    ghost use Rattle.vm_host.specs.declared.host.HostFault.TheVariants.{Memory};

    ghost from_gives = { λ _ e. e ≡ Memory };

    fn from(_error: AllocError) -> HostFault {
        HostFault::Memory
    }
}

impl<T: Drop> From<AllocFailed<T>> for HostFault {
    ghost use Rattle.vm_host.specs.declared.host.HostFault.TheVariants.{Memory};

    ghost from_gives = { λ _ e. e ≡ Memory };

    fn from(_error: AllocFailed<T>) -> HostFault {
        HostFault::Memory
    }
}

impl From<OutOfMemory> for HostFault {
    ghost use Rattle.vm_host.specs.declared.host.HostFault.TheVariants.{Memory};

    ghost from_gives = { λ _ e. e ≡ Memory };

    fn from(_error: OutOfMemory) -> HostFault {
        HostFault::Memory
    }
}

/// Files by name: a finite map of names to byte lists.
///
/// Each call, also one that fails, leaves all files but the one that it names. `Failed` comes only
/// where `faults` rose, `Missing` only where `misses` rose, and neither count rises at another
/// answer. The name of the call that answered `Failed` last is told, as `failed`. `Memory` may be
/// the answer of each call that has an answer.
pub trait Host {
    /// A file that is lent as a disk image.
    type Image: Image + Send + Drop;

    /// What clauses see of it: its files, its counts, the name of its last failure, and what
    /// crashes may leave. The counts stand still at 2^64 - 1.
    ghost seen: { Self → HostView };

    /// How many bytes a file has.
    ///
    /// `Missing` comes only where there is no such file. The file stays as it is, also after a
    /// fault.
    fn length(&mut self, name: &str) -> Result<u64, HostFault>
        ensures value { WhereTold (seen self.old).tells
            (IfOk result (λ n. IsSomeAnd ((seen self.old).file name.now) (λ f. n ≡ length f))) }
        ensures missing { WhereTold (seen self.old).tells
            (IsErrOf result Missing → (seen self.old).file name.now ≡ None) }
        ensures cause { HasCause name.now (seen self.old) (seen self.new) result }
        ensures leaves { ReadsHost (seen self.old) (seen self.new) }
        ensures reads { WhereTold (seen self.old).tells (ReadsNow (seen self.new)) };

    /// Reads a file from byte `at` on into `into`, as pread(2) does, and answers how many bytes
    /// were read: as many as fit into `into` or stand there. So 0 comes only at or past the end, or
    /// for an empty `into`.
    ///
    /// `Missing` comes only where there is no such file. The file stays as it is, also after a
    /// fault.
    fn read_at(&mut self, name: &str, at: u64, into: &mut [u8]) -> Result<usize, HostFault>
        ensures within { IfOk result (λ n. n ≤ length into.old) }
        ensures value { WhereTold (seen self.old).tells
            (IfOk result (λ n. IsSomeAnd ((seen self.old).file name.now) (λ f. ReadsFrom f at into.new n))) }
        ensures missing { WhereTold (seen self.old).tells
            (IsErrOf result Missing → (seen self.old).file name.now ≡ None) }
        ensures cause { HasCause name.now (seen self.old) (seen self.new) result }
        ensures leaves { ReadsHost (seen self.old) (seen self.new) }
        ensures reads { WhereTold (seen self.old).tells (ReadsNow (seen self.new)) };

    /// Makes a file anew: it is then there and empty, also in every crash from its `Ok` on, until
    /// the next write.
    ///
    /// After a fault nothing is known of that file: a file system may fail after the old file is
    /// gone.
    fn make(&mut self, alloc: Global, name: &str) -> Result<(), HostFault>
        ensures empty { WhereTold (seen self.old).tells
            (OnOk result ((seen self.new).file name.now ≡ Some [])) }
        ensures crash { WhereTold (seen self.old).tells
            (OnOk result (Only [] ((seen self.new).left name.now (seen self.new).moment))) }
        ensures made { WhereTold (seen self.old).tells
            (Makes name.now (seen self.old) (seen self.new) result) }
        ensures cause { HasCause name.now (seen self.old) (seen self.new) result }
        ensures not_missing { IsErrOf result Missing → ⊥ }
        ensures leaves { WritesFile name.now (seen self.old) (seen self.new) }
        ensures reads { WhereTold (seen self.old).tells (ReadsNow (seen self.new)) };

    /// Writes a piece over a file that stands, from byte `at` on, as pwrite(2) does. The file is
    /// longer afterwards where the piece ends past the old end; between an old end and a later `at`
    /// stand any bytes.
    ///
    /// After a fault the file still stands, and nothing else is known of its bytes than of a write
    /// that a crash cut short: a file system may fail when a part of the piece is written.
    fn write_at(
        &mut self,
        alloc: Global,
        name: &str,
        at: u64,
        piece: &[u8],
    ) -> Result<(), HostFault>
        requires { WhereTold (seen self.old).tells (IsSome ((seen self.old).file name.now)) }
        ensures written { WhereTold (seen self.old).tells (OnOk result
            (Written ((seen self.old).file name.now) at piece.now ((seen self.new).file name.now))) }
        ensures stands { WhereTold (seen self.old).tells (IsSome ((seen self.new).file name.now)) }
        ensures crash { WhereTold (seen self.old).tells (AddsTorn at (length piece.now)
            ((seen self.old).left name.now (seen self.old).moment) ((seen self.new).left name.now (seen self.old).moment)) }
        ensures made { WhereTold (seen self.old).tells ((seen self.new).made ≡ (seen self.old).made) }
        ensures cause { HasCause name.now (seen self.old) (seen self.new) result }
        ensures not_missing { IsErrOf result Missing → ⊥ }
        ensures leaves { WritesFile name.now (seen self.old) (seen self.new) }
        ensures reads { WhereTold (seen self.old).tells (ReadsNow (seen self.new)) };

    /// Makes sure that what was written lasts, as fsync(2) does: after `Ok` a crash leaves what a
    /// read gives.
    ///
    /// What the file reads as stays, also after a fault.
    fn sync(&mut self, name: &str) -> Result<(), HostFault>
        requires { WhereTold (seen self.old).tells (IsSome ((seen self.old).file name.now)) }
        ensures durable { WhereTold (seen self.old).tells (OnOk result
            (IfSome ((seen self.old).file name.now) (λ f. Only f ((seen self.new).left name.now (seen self.new).moment)))) }
        ensures cause { HasCause name.now (seen self.old) (seen self.new) result }
        ensures not_missing { IsErrOf result Missing → ⊥ }
        ensures leaves { ReadsHost (seen self.old) (seen self.new) }
        ensures reads { WhereTold (seen self.old).tells (ReadsNow (seen self.new)) };

    /// Lends a file that stands as an image, which reads as the file and whose counts are 0.
    ///
    /// Until it is closed the file stands, and nothing is known of its bytes. After a fault every
    /// file is as before.
    fn open_image(&mut self, alloc: Global, name: &str) -> Result<Self::Image, HostFault>
        requires { WhereTold (seen self.old).tells (IsSome ((seen self.old).file name.now)) }
        ensures image_told { IfOk result (λ i. (Self.Image.seen i).tells ≡ (seen self.old).tells) }
        ensures image { WhereTold (seen self.old).tells
            (IfOk result (λ i. (seen self.old).file name.now ≡ Some (Self.Image.seen i).content)) }
        ensures fresh { IfOk result (λ i. ((Self.Image.seen i).faults ≡ 0) × ((Self.Image.seen i).syncs ≡ 0)) }
        ensures stands { WhereTold (seen self.old).tells
            (OnOk result (IsSome ((seen self.new).file name.now))) }
        ensures refused { WhereTold (seen self.old).tells
            (OnErr result ((seen self.new).file ≡ (seen self.old).file)) }
        ensures made { WhereTold (seen self.old).tells ((seen self.new).made ≡ (seen self.old).made) }
        ensures cause { HasCause name.now (seen self.old) (seen self.new) result }
        ensures not_missing { IsErrOf result Missing → ⊥ }
        ensures leaves { WritesFile name.now (seen self.old) (seen self.new) }
        ensures reads { WhereTold (seen self.old).tells (ReadsNow (seen self.new)) };

    /// Takes an image back. The file then reads as the image's content.
    ///
    /// `image_faults` rises exactly where the image has faults.
    fn close_image(&mut self, name: &str, image: Self::Image)
        requires { WhereTold (seen self.old).tells (IsSome ((seen self.old).file name.now)) }
        ensures content { WhereTold (seen self.old).tells (WhereTold (Self.Image.seen image).tells
            ((seen self.new).file name.now ≡ Some (Self.Image.seen image).content)) }
        ensures image_faults { RoseExactly (0 < (Self.Image.seen image).faults)
            (seen self.old).image_faults (seen self.new).image_faults }
        ensures made { WhereTold (seen self.old).tells ((seen self.new).made ≡ (seen self.old).made) }
        ensures counts { SameCounts (seen self.old) (seen self.new) }
        ensures leaves { LeavesHost (λ q. q ≡ name.now) (seen self.old) (seen self.new) }
        ensures reads { WhereTold (seen self.old).tells (ReadsNow (seen self.new)) };

    /// A file was made at a moment that has passed.
    ghost made_before: { (host : Self) (q : List ℕ) → (seen host).tells ≡ true → (seen host).made q ≤ (seen host).moment };

    /// A crash from a later moment on is one from an earlier moment on.
    ghost since_earlier: { (host : Self) → (seen host).tells ≡ true → SinceEarlier (seen host).left };

    /// The images of a host that tells its files tell their bytes.
    ghost images_tell: { (host : Self) (image : Self.Image) → (seen host).tells ≡ true → (Self.Image.seen image).tells ≡ true };
}
