//! A disk image in a file of the system.
ghost use Rattle.std.specs.Prelude.{◌≡◌, ◌<◌, ◌↔◌, IsTrue, IfOk};
ghost use Rattle.vm_hostreal.specs.Views.{image_view};

use crate::files::{self, Access};
use std::fs::File;
use std::io::{self, ErrorKind};
use std::marker::Model;
use std::rt::HostRuntime;
use vm_host::{Image, ImageFault};

/// How many bytes a sector has.
const SECTOR: u64 = 512;

/// A disk image in a regular file, with counts of its refusals and syncs.
///
/// A sector that isn't whole inside the file is refused, so that the file never gets longer.
#[derive(Drop)]
pub struct FileImage {
    file: File,
    sectors: u64,
    faults: u64,
    syncs: u64,
}

impl Model for FileImage {
    ghost use Rattle.vm_hostreal.specs.Views.{ImageCounts};

    ghost Value = { ImageCounts };

    ghost view = { λ i. record { faults = i.faults; syncs = i.syncs } };
}

impl FileImage {
    /// The image in a file, open for reading alone where writing is refused (EACCES, EPERM, EROFS). Both counts are 0.
    pub(crate) fn open(rt: &HostRuntime, name: &str) -> io::Result<FileImage>
        ensures { IfOk result (λ i. i ≡ record { faults = 0; syncs = 0 }) }
    {
        let file = match files::open(rt, name, Access::Both) {
            Err(error) if is_read_only(error.kind()) => files::open(rt, name, Access::Read)?,
            other => other?,
        };
        let sectors = file.metadata()?.len() / SECTOR;
        Ok(FileImage {
            file,
            sectors,
            faults: 0,
            syncs: 0,
        })
    }

    /// Whether one of its calls has failed.
    pub(crate) fn has_failed(&self) -> bool
        ensures { IsTrue result ↔ (0 < self.now.faults) }
    {
        self.faults > 0
    }

    /// Writes a sector that is inside.
    fn put(&self, sector: u64, bytes: &[u8; 512]) -> io::Result<()> {
        match sector.checked_mul(SECTOR) {
            Some(at) if sector < self.sectors => files::write_full(&self.file, at, bytes),
            _ => Err(io::Error::from(ErrorKind::InvalidInput)),
        }
    }
}

/// Whether writing is refused where reading may not be.
fn is_read_only(kind: ErrorKind) -> bool {
    kind == ErrorKind::PermissionDenied || kind == ErrorKind::ReadOnlyFilesystem
}

impl Image for FileImage {
    ghost seen = { image_view };

    fn write_at(&mut self, sector: u64, bytes: &[u8; 512]) -> Result<(), ImageFault> {
        match self.put(sector, bytes) {
            Ok(()) => Ok(()),
            Err(_) => {
                self.faults = self.faults.saturating_add(1);
                Err(ImageFault)
            }
        }
    }

    fn sync(&mut self) -> Result<(), ImageFault> {
        match self.file.sync_all() {
            Ok(()) => {
                self.syncs = self.syncs.saturating_add(1);
                Ok(())
            }
            Err(_) => {
                self.faults = self.faults.saturating_add(1);
                Err(ImageFault)
            }
        }
    }
}
