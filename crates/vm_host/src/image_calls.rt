//! The calls of disk images that are to fail, before the images are opened.
ghost use Rattle.std.specs.Prelude.{◌≡◌, IfOk, string_bytes};
ghost use Rattle.std.specs.Str.{bytes_eq};
ghost use Rattle.vm_host.specs.MemState.{calls_of, calls_of_others};

use std::alloc::Global;
use std::marker::Model;
use vm_law::OutOfMemory;

/// A call of the next image of a file that is to fail.
#[derive(Drop)]
pub struct ImageCall {
    name: String,
    call: u64,
}

impl Model for ImageCall {
    ghost use Rattle.std.specs.Prelude.{string_bytes};
    ghost use Rattle.vm_host.specs.MemState as spec;

    ghost Value = { spec.ImageCall };

    ghost view = { λ e. record { name = string_bytes e.name; call = e.call } };
}

impl ImageCall {
    /// The call of this number of the next image of the file of this name.
    pub fn new(alloc: Global, name: &str, call: u64) -> Result<ImageCall, OutOfMemory>
        ensures { IfOk result (λ e. e ≡ record { name = name.now; call = call }) }
    {
        let name = String::from_str(alloc, name)?;
        Ok(ImageCall { name, call })
    }

    /// Whether it is one of the image of this file.
    pub fn is_of(&self, name: &str) -> bool
        ensures { result ≡ bytes_eq name.now self.now.name }
    {
        name == self.name.as_str()
    }
}

/// The numbers of the calls that are listed for the image of a file.
pub fn listed_for(alloc: Global, listed: &[ImageCall], name: &str) -> Result<Vec<u64>, OutOfMemory>
    ensures { IfOk result (λ v. v.items ≡ calls_of listed.now name.now) }
{
    let mut calls = Vec::new(alloc);
    for entry in listed {
        if entry.is_of(name) {
            calls.push(entry.call)?;
        }
    }
    Ok(calls)
}

/// Takes the calls of the image of a file off the list.
pub fn take_off(listed: &mut Vec<ImageCall>, name: &str)
    ensures { listed.new.items ≡ calls_of_others listed.old.items name.now }
{
    listed.retain(|entry| !entry.is_of(name));
}
