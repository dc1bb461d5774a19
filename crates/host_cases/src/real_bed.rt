//! Cases over the files of the system.
use crate::calls::{Piece, run_free, sector_of};
use crate::case::{Bed, CaseError, cut, mode_of, name_of};
use crate::gave::{Answer, Gave, cannot, done, done_or_failed, refused};
use crate::room::Room;
use std::fs::{self, Permissions};
use std::io;
use std::os::fd::AsRawFd;
use std::os::unix::fs::{PermissionsExt, symlink};
use vm_host::{Host, Image};
use vm_hostreal::{FileHost, FileImage};

/// An image that is lent.
#[derive(Drop)]
struct Lent {
    name: String,
    image: FileImage,
}

/// The files of a case's folder, and the image that they have lent.
#[derive(Drop)]
pub struct RealBed<'a> {
    rt: &'a HostRuntime,
    room: &'a Room,
    host: FileHost,
    lent: Option<Lent>,
}

impl<'a> RealBed<'a> {
    /// The files of the folder that the program is in.
    pub fn new(rt: &'a HostRuntime, room: &'a Room) -> io::Result<RealBed<'a>> {
        Ok(RealBed {
            rt,
            room,
            host: FileHost::new(rt.clone()?),
            lent: None,
        })
    }

    /// Writes a piece.
    fn write(&mut self, fields: &str) -> Result<Gave, CaseError> {
        let alloc = self.rt.alloc();
        let piece = Piece::of(alloc, fields)?;
        let name = piece.name.as_str();
        Ok(done(self.host.write_at(alloc, name, piece.at, &piece.bytes)))
    }

    /// Syncs a file.
    fn sync(&mut self, name: &str) -> Result<Gave, CaseError> {
        let name = name_of(self.rt.alloc(), name)?;
        Ok(done(self.host.sync(name.as_str())))
    }

    /// Opens an image, where none is open.
    fn open(&mut self, name: &str) -> Result<Gave, CaseError> {
        let alloc = self.rt.alloc();
        let name = name_of(alloc, name)?;
        if self.lent.is_some() {
            return Ok(cannot());
        }
        match self.host.open_image(alloc, name.as_str()) {
            Ok(image) => {
                self.lent = Some(Lent { name, image });
                Ok(Gave::Answer(Answer::Done))
            }
            Err(fault) => Ok(refused(fault)),
        }
    }

    /// Writes a sector of the image that is open.
    fn write_sector(&mut self, fields: &str) -> Result<Gave, CaseError> {
        let (sector, bytes) = sector_of(self.rt.alloc(), fields)?;
        match &mut self.lent {
            Some(lent) => Ok(done_or_failed(lent.image.write_at(sector, &bytes))),
            None => Ok(cannot()),
        }
    }

    /// Syncs the image that is open.
    fn flush(&mut self) -> Gave {
        match &mut self.lent {
            Some(lent) => done_or_failed(lent.image.sync()),
            None => cannot(),
        }
    }

    /// Gives the image that is open back.
    fn close(&mut self) -> Gave {
        let Some(Lent { name, image }) = self.lent.take() else {
            return cannot();
        };
        self.host.close_image(name.as_str(), image);
        Gave::Answer(Answer::Done)
    }

    /// Says who may read and write a file or a folder: NAME:MODE.
    fn set_mode(&self, fields: &str) -> Result<Gave, CaseError> {
        let (name, mode) = cut(fields)?;
        let permissions = Permissions::from_mode(mode_of(mode)?);
        Ok(done_or_failed(fs::set_permissions(self.rt, name, permissions)))
    }

    /// Makes a symbolic link: TARGET:NAME.
    fn link(&self, fields: &str) -> Result<Gave, CaseError> {
        let (target, name) = cut(fields)?;
        Ok(done_or_failed(symlink(self.rt, target, name)))
    }

    /// Makes a symbolic link to the reading end of a pipe.
    fn link_pipe(&self, name: &str) -> Result<Gave, CaseError> {
        let number = self.room.pipe().as_raw_fd();
        let target = format!(in self.rt.alloc(); "/proc/self/fd/{number}")?;
        Ok(done_or_failed(symlink(self.rt, target.as_str(), name)))
    }
}

impl<'a> Bed for RealBed<'a> {
    type Files = FileHost;

    fn files(&mut self) -> &mut FileHost {
        &mut self.host
    }

    fn run(&mut self, command: &str, fields: &str) -> Result<Gave, CaseError> {
        let alloc = self.rt.alloc();
        match command {
            "write" => self.write(fields),
            "sync" => self.sync(fields),
            "open" => self.open(fields),
            "sector" => self.write_sector(fields),
            "flush" => Ok(self.flush()),
            "close" => Ok(self.close()),
            "failed" => Ok(Gave::Name(self.host.failed().to_vec(alloc)?)),
            "folder" => Ok(done_or_failed(fs::create_dir(self.rt, fields))),
            "mode" => self.set_mode(fields),
            "link" => self.link(fields),
            "pipe" => self.link_pipe(fields),
            _ => run_free(alloc, &mut self.host, command, fields),
        }
    }
}
