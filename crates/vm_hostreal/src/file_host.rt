//! Files of the system, by name.
ghost use Rattle.std.specs.Prelude.{◌≡◌, ◌⊎◌, [], take};
ghost use Rattle.std.proofs.Common.{rules};
ghost use Rattle.vm_host.specs.MemState.{one_more};
ghost use Rattle.vm_host.specs.declared.host.HostFault.TheVariants.{Missing, Failed, Memory};
ghost use Rattle.vm_hostreal.specs.Views.{host_view};

use crate::file_image::FileImage;
use crate::files;
use crate::kept_file::KeptFile;
use std::alloc::Global;
use std::io::{self, ErrorKind};
use std::marker::Model;
use std::rt::HostRuntime;
use vm_host::{FailedName, Host, HostFault};

/// The files of the system, by their paths, with counts of its refusals and the name of the last failure.
///
/// Only regular files are opened, for no more than the call needs: a file that can't be read can be made and written.
/// `Missing` is the answer of `length` and `read_at` where the system says that there is no such file (ENOENT), and
/// `Memory` where memory is refused; every other refusal is `Failed`. A call that a signal interrupts is made again.
/// `make` and `sync` call fsync(2), `make` on the folder too.
#[derive(Drop)]
pub struct FileHost {
    rt: HostRuntime,
    kept: KeptFile,
    faults: u64,
    misses: u64,
    failed: FailedName,
    image_faults: u64,
}

impl Model for FileHost {
    ghost use Rattle.vm_hostreal.specs.Views.{HostCounts};

    ghost Value = { HostCounts };

    ghost view = { λ h. record { faults = h.faults; misses = h.misses; failed = h.failed; image_faults = h.image_faults } };
}

impl FileHost {
    /// The files of the system. All counts are 0, and no name is told.
    pub fn new(rt: HostRuntime) -> FileHost
        ensures { result ≡ record { faults = 0; misses = 0; failed = []; image_faults = 0 } }
    {
        FileHost {
            rt,
            kept: KeptFile::new(),
            faults: 0,
            misses: 0,
            failed: FailedName::new(),
            image_faults: 0,
        }
    }

    /// The name, cut off at 4,096 bytes, that the last call that answered `Failed` was about. None has, where it is
    /// empty.
    pub fn failed(&self) -> &[u8]
        ensures { result.now ≡ self.now.failed }
    {
        self.failed.as_bytes()
    }

    /// Counts a failure and keeps the name; want of memory does neither.
    fn refused(&mut self, name: &str, error: &io::Error) -> HostFault
        ensures { ((result ≡ Failed) × (self.new ≡ record self.old {
          faults = one_more self.old.faults;
          failed = take 4096 name.now;
        })) ⊎ ((result ≡ Memory) × (self.new ≡ self.old)) }
    {
        if error.kind() == ErrorKind::OutOfMemory {
            return HostFault::Memory;
        }
        self.faults = self.faults.saturating_add(1);
        self.failed.set(name);
        HostFault::Failed
    }

    /// Counts a file that isn't there.
    fn missed(&mut self) -> HostFault
        ensures fault { result ≡ Missing }
        ensures after { self.new ≡ record self.old { misses = one_more self.old.misses } }
    {
        self.misses = self.misses.saturating_add(1);
        HostFault::Missing
    }
}

impl Host for FileHost {
    type Image = FileImage;

    ghost seen = { host_view };

    ghost made_before = { λ h q told. Prim.search rules };

    ghost since_earlier = { λ h told q t u b le left. left };

    ghost images_tell = { λ h image told. told };

    fn length(&mut self, name: &str) -> Result<u64, HostFault> {
        match files::size_of(&self.rt, name) {
            Ok(size) => Ok(size),
            Err(error) if error.kind() == ErrorKind::NotFound => Err(self.missed()),
            Err(error) => Err(self.refused(name, &error)),
        }
    }

    fn read_at(&mut self, name: &str, at: u64, into: &mut [u8]) -> Result<usize, HostFault> {
        match self.kept.read_at(&self.rt, name, at, into) {
            Ok(count) => Ok(count),
            Err(error) if error.kind() == ErrorKind::NotFound => Err(self.missed()),
            Err(error) => Err(self.refused(name, &error)),
        }
    }

    fn make(&mut self, _alloc: Global, name: &str) -> Result<(), HostFault> {
        match self.kept.make(&self.rt, name) {
            Ok(()) => Ok(()),
            Err(error) => Err(self.refused(name, &error)),
        }
    }

    fn write_at(
        &mut self,
        _alloc: Global,
        name: &str,
        at: u64,
        piece: &[u8],
    ) -> Result<(), HostFault> {
        match self.kept.write_at(&self.rt, name, at, piece) {
            Ok(()) => Ok(()),
            Err(error) => Err(self.refused(name, &error)),
        }
    }

    fn sync(&mut self, name: &str) -> Result<(), HostFault> {
        match self.kept.sync(&self.rt, name) {
            Ok(()) => Ok(()),
            Err(error) => Err(self.refused(name, &error)),
        }
    }

    fn open_image(&mut self, _alloc: Global, name: &str) -> Result<FileImage, HostFault> {
        match FileImage::open(&self.rt, name) {
            Ok(image) => Ok(image),
            Err(error) => Err(self.refused(name, &error)),
        }
    }

    fn close_image(&mut self, _name: &str, image: FileImage) {
        if image.has_failed() {
            self.image_faults = self.image_faults.saturating_add(1);
        }
    }
}
