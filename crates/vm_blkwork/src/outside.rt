//! An image that is out, and the call on it.
ghost use Rattle.std.specs.Prelude.{◌≡◌, Some, None};
ghost use Rattle.vm_blkwork.specs.Outside.{CalledOnce, CanCall, IsCalled};

use vm_host::{Gate, Image, Place};

/// The image of a disk that is out for a request.
#[derive(Drop)]
pub struct Out<I> {
    /// The request's id.
    pub id: u32,
    /// The number and the bytes of the sector that is to be written; none for a flush.
    pub sector: Option<(u64, [u8; 512])>,
    /// Whether the call on the image succeeded, once it was made.
    pub answer: Option<bool>,
    /// The image.
    pub image: I,
}

impl<I: Image> Out<I> {
    /// Writes the sector, or syncs the image, and keeps what that answers.
    pub(crate) fn call(&mut self)
        requires { CanCall I.seen self.old }
        ensures { IsCalled I.seen self.old self.new }
    {
        let sector = self.sector;
        let answer = match sector {
            Some(whole) => {
                let bytes = whole.1;
                self.image.write_at(whole.0, &bytes)
            }
            None => self.image.sync(),
        };
        self.answer = Some(answer.is_ok());
    }

    /// The same, where the call wasn't made yet. The gate is called before a write.
    pub(crate) fn call_once<G: Gate>(&mut self, gate: &G, disk: u8)
        requires { self.old.answer ≡ None → CanCall I.seen self.old }
        ensures { CalledOnce I.seen self.old self.new self.old.answer }
    {
        if self.answer.is_some() {
            return;
        }
        if self.sector.is_some() {
            gate.at(Place::Write { disk });
        }
        self.call();
    }
}
