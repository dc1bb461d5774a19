use std::fmt;
use thiserror::Error;
use vm_law::OutOfMemory;

/// What is wrong with the bytes. The kinds are tried in this order.
#[derive(Clone, Copy, Debug, PartialEq, Eq)]
pub enum ImageKind {
    /// One of the first eight bytes is missing or isn't that of `VMFLAT1` and a line feed.
    Magic,
    /// There are fewer than 24 bytes.
    Short,
    /// The length of the code part is 0, above 16 MiB, or above that of the payload.
    Code,
    /// The entry isn't below the length of the code part.
    Entry,
    /// The payload is longer than the memory.
    Large,
}

impl fmt::Display for ImageKind {
    ghost use Rattle.std.specs.Prelude.{Some};
    ghost use Rattle.vm_image.specs.Kind.{name_of};

    ghost output = { λ kind. Some (name_of kind) };

    fn fmt<W: fmt::Write>(&self, f: &mut fmt::Formatter<W>) -> fmt::Result {
        match self {
            ImageKind::Magic => write!(f, "magic"),
            ImageKind::Short => write!(f, "short"),
            ImageKind::Code => write!(f, "code"),
            ImageKind::Entry => write!(f, "entry"),
            ImageKind::Large => write!(f, "large"),
        }
    }
}

/// Why no image was read.
#[derive(Clone, Copy, Debug, PartialEq, Eq, Error)]
pub enum ImageError {
    /// The bytes are no image: the first place at which they are wrong, counted from 0, and what is wrong there.
    #[error("at {at}: {kind}")]
    Fault { at: u64, kind: ImageKind },
    /// An allocation was refused.
    #[error("out of memory")]
    Memory,
}

impl From<OutOfMemory> for ImageError {
    ghost use Rattle.std.specs.Prelude.{◌≡◌};
    ghost use Rattle.vm_image.specs.declared.error.ImageError.TheVariants.{Memory};

    ghost from_gives = { λ _ e. e ≡ Memory };

    fn from(_error: OutOfMemory) -> ImageError {
        ImageError::Memory
    }
}

/// The place and the kind of a fault.
#[derive(Clone, Copy)]
pub(crate) struct Fault {
    pub at: u64,
    pub kind: ImageKind,
}

impl From<Fault> for ImageError {
    ghost use Rattle.std.specs.Prelude.{◌≡◌};
    ghost use Rattle.vm_image.specs.declared.error.ImageError.TheVariants.{Fault};

    ghost from_gives = { λ f e. e ≡ Fault f.at f.kind };

    fn from(fault: Fault) -> ImageError {
        ImageError::Fault {
            at: fault.at,
            kind: fault.kind,
        }
    }
}
