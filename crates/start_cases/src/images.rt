ghost use Rattle.std.specs.List.{All};
ghost use Rattle.start_cases.specs.Images.{HasSector};
ghost use Rattle.vm_host.specs.MemState.{host_view, image_view};
ghost use Rattle.vm_start.specs.Images.{AreApart, AreFilesOf};
ghost use Rattle.vm_state.specs.Start.{IsSound};

use crate::case::CaseError;
use crate::shown::refusal_text;
use std::alloc::Global;
use vm_host::{Image, MemHost, MemImage};
use vm_start::{close_images, open_images};
use vm_state::Start;

/// The images as those that are at home, once the first sector of each was written.
fn homes_of(alloc: Global, images: Vec<MemImage>) -> Result<Vec<Option<MemImage>>, CaseError>
    requires { All HasSector images.items }
{
    let mut homes = Vec::new(alloc);
    for mut image in images {
        let _ = image.write_at(0, &[0xff; 512]);
        homes.push(Some(image))?;
    }
    Ok(homes)
}

/// The first byte and the length of each disk's file, once the images were opened, written and closed.
pub fn through_images(alloc: Global, host: &mut MemHost, start: &Start) -> Result<String, CaseError>
    requires sound { IsSound start.now }
    requires apart { AreApart start.now.plan }
    requires disks { AreFilesOf (host_view host.old).file start.now }
{
    let images = match open_images(alloc, host, start) {
        Ok(images) => images,
        Err(refusal) => return refusal_text(alloc, &refusal),
    };
    let homes = homes_of(alloc, images)?;
    if homes.len() != start.plan.disks.len() {
        return Err(CaseError::Form);
    }
    close_images(host, start, homes);
    let mut out = String::new(alloc);
    out.push_str("images")?;
    for disk in start.plan.disks.as_slice() {
        let path = disk.path.as_str();
        match host.file(path) {
            Some([first, rest @ ..]) => {
                let length = rest.len() + 1;
                write!(out, " {path} {first} {length}")?;
            }
            _ => write!(out, " {path} none")?,
        }
    }
    Ok(out)
}
