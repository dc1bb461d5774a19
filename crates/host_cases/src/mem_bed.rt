//! Cases over files in memory.
ghost use Rattle.std.specs.Prelude.{◌≤◌, ◌*◌, length};

use crate::calls::{Piece, run_free, sector_of};
use crate::case::{Bed, CaseError, bytes_of, cut, name_of, number_of};
use crate::gave::{Answer, Gave, cannot, done, done_or_failed, refused};
use vm_host::{Host, Image, ImageFault, MemHost, MemImage};

/// How many bytes a sector has.
const SECTOR: usize = 512;

/// An image that is lent, of at least so many sectors.
#[derive(Drop)]
struct Lent {
    name: String,
    image: MemImage,
    sectors: u64,
    ghost inside: { 512 * sectors ≤ length image.bytes },
}

impl Lent {
    /// Writes a sector, where it is inside.
    fn write(&mut self, sector: u64, bytes: &[u8; 512]) -> Option<Result<(), ImageFault>> {
        if sector < self.sectors {
            Some(self.image.write_at(sector, bytes))
        } else {
            None
        }
    }
}

/// Files in memory, and the image that they have lent.
#[derive(Drop)]
pub struct MemBed<'a> {
    rt: &'a HostRuntime,
    host: MemHost,
    lent: Option<Lent>,
}

impl<'a> MemBed<'a> {
    /// No file.
    pub fn new(rt: &'a HostRuntime) -> MemBed<'a> {
        MemBed {
            rt,
            host: MemHost::new(rt.alloc()),
            lent: None,
        }
    }

    /// Writes a piece, where the file stands.
    fn write(&mut self, fields: &str) -> Result<Gave, CaseError> {
        let alloc = self.rt.alloc();
        let piece = Piece::of(alloc, fields)?;
        let name = piece.name.as_str();
        if self.host.file(name).is_none() {
            return Ok(cannot());
        }
        Ok(done(self.host.write_at(alloc, name, piece.at, &piece.bytes)))
    }

    /// Syncs a file, where it stands.
    fn sync(&mut self, name: &str) -> Result<Gave, CaseError> {
        let name = name_of(self.rt.alloc(), name)?;
        if self.host.file(name.as_str()).is_none() {
            return Ok(cannot());
        }
        Ok(done(self.host.sync(name.as_str())))
    }

    /// Opens an image, where its file stands and none is open.
    fn open(&mut self, name: &str) -> Result<Gave, CaseError> {
        let alloc = self.rt.alloc();
        let name = name_of(alloc, name)?;
        let Some(bytes) = self.host.file(name.as_str()) else {
            return Ok(cannot());
        };
        if self.lent.is_some() {
            return Ok(cannot());
        }
        let sectors = (bytes.len() / SECTOR) as u64;
        match self.host.open_image(alloc, name.as_str()) {
            Ok(image) => {
                self.lent = Some(Lent {
                    name,
                    image,
                    sectors,
                });
                Ok(Gave::Answer(Answer::Done))
            }
            Err(fault) => Ok(refused(fault)),
        }
    }

    /// Writes a sector of the image that is open.
    fn write_sector(&mut self, fields: &str) -> Result<Gave, CaseError> {
        let (sector, bytes) = sector_of(self.rt.alloc(), fields)?;
        let Some(lent) = &mut self.lent else {
            return Ok(cannot());
        };
        match lent.write(sector, &bytes) {
            Some(result) => Ok(done_or_failed(result)),
            None => Ok(cannot()),
        }
    }

    /// Syncs the image that is open.
    fn flush(&mut self) -> Gave {
        match &mut self.lent {
            Some(lent) => done_or_failed(lent.image.sync()),
            None => cannot(),
        }
    }

    /// Gives the image that is open back, where its file stands.
    fn close(&mut self) -> Gave {
        let Some(Lent { name, image, .. }) = self.lent.take() else {
            return cannot();
        };
        if self.host.file(name.as_str()).is_none() {
            return cannot();
        }
        self.host.close_image(name.as_str(), image);
        Gave::Answer(Answer::Done)
    }

    /// The bytes of a file, without a call that is numbered.
    fn file(&self, name: &str) -> Result<Gave, CaseError> {
        let alloc = self.rt.alloc();
        match self.host.file(name_of(alloc, name)?.as_str()) {
            Some(bytes) => Ok(Gave::Bytes(bytes.to_vec(alloc)?)),
            None => Ok(Gave::Answer(Answer::Missing)),
        }
    }

    /// Puts a file: NAME:BYTES.
    fn put(&mut self, fields: &str) -> Result<Gave, CaseError> {
        let alloc = self.rt.alloc();
        let (name, bytes) = cut(fields)?;
        let name = name_of(alloc, name)?;
        self.host
            .put(alloc, name.as_str(), &bytes_of(alloc, bytes)?)?;
        Ok(Gave::Answer(Answer::Done))
    }

    /// Lists a call of the next image of a file as one that is to fail: NAME:NUMBER.
    fn fail_image(&mut self, fields: &str) -> Result<Gave, CaseError> {
        let alloc = self.rt.alloc();
        let (name, call) = cut(fields)?;
        let name = name_of(alloc, name)?;
        self.host
            .fail_image(alloc, name.as_str(), number_of(call)?)?;
        Ok(Gave::Answer(Answer::Done))
    }
}

impl<'a> Bed for MemBed<'a> {
    type Files = MemHost;

    fn files(&mut self) -> &mut MemHost {
        &mut self.host
    }

    fn run(&mut self, command: &str, fields: &str) -> Result<Gave, CaseError> {
        let alloc = self.rt.alloc();
        match command {
            "write" => self.write(fields),
            "sync" => self.sync(fields),
            "open" => self.open(fields),
            "sector" => self.write_sector(fields),
            "flush" => Ok(self.flush()),
            "close" => Ok(self.close()),
            "failed" => Ok(Gave::Name(self.host.failed().to_vec(alloc)?)),
            "file" => self.file(fields),
            "put" => self.put(fields),
            "fail_image" => self.fail_image(fields),
            "fail" => {
                self.host.fail(alloc, number_of(fields)?)?;
                Ok(Gave::Answer(Answer::Done))
            }
            _ => run_free(alloc, &mut self.host, command, fields),
        }
    }
}
