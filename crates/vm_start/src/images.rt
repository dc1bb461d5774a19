//! The images of a start's disks.
ghost use Rattle.std.specs.Prelude.{◌≡◌, ◌⊎◌, ◌<◌, ◌≤◌, ◌+◌, ◌-◌, ℕ, List, [], drop, length, slice_index_or, Some, None, IsSome, IfOk, IfErr, OnOk, OnErr};
ghost use Rattle.std.specs.Vec.{vec_capacity};
ghost use Rattle.std.specs.List.{All};
ghost use Rattle.vm_board.specs.Homes.{AreFresh};
ghost use Rattle.vm_host.specs.Counts.{RoseExactly, SameCounts};
ghost use Rattle.vm_host.specs.Leaves.{WritesFile, WritesFiles, LeavesHost};
ghost use Rattle.vm_host.specs.Told.{WhereTold};
ghost use Rattle.vm_state.specs.Start.{IsSound};
ghost use Rattle.vm_status.specs.declared.refusal.Refusal.TheVariants.{HostFault, Memory};
ghost use Rattle.vm_start.specs.Causes.{HasReadCauses};
ghost use Rattle.vm_start.specs.Opening.{HasClosed, HasOpened};
ghost use Rattle.vm_start.specs.Images.{path_of, AreApart, AreFilesOf, AllStand, IsDiskOf, IsGivenBack, HasFailed};

use crate::refusing::after_host;
use std::alloc::Global;
use vm_host::Host;
use vm_law::Text;
use vm_state::Start;
use vm_status::Refusal;

/// Has the host lend a file as an image.
fn open_image<H: Host>(alloc: Global, host: &mut H, name: &str) -> Result<H::Image, Refusal>
    requires { WhereTold (H.seen host.old).tells (IsSome ((H.seen host.old).file name.now)) }
    ensures told { IfOk result (λ i. (H.Image.seen i).tells ≡ (H.seen host.old).tells) }
    ensures content { WhereTold (H.seen host.old).tells (IfOk result (λ i. (H.seen host.old).file name.now ≡ Some (H.Image.seen i).content)) }
    ensures fresh { IfOk result (λ i. ((H.Image.seen i).faults ≡ 0) × ((H.Image.seen i).syncs ≡ 0)) }
    ensures stands { WhereTold (H.seen host.old).tells (OnOk result (IsSome ((H.seen host.new).file name.now))) }
    ensures closed { WhereTold (H.seen host.old).tells (OnErr result ((q : List ℕ) → (H.seen host.new).file q ≡ (H.seen host.old).file q)) }
    ensures refusal { IfErr result (λ e. (e ≡ Memory) ⊎ (e ≡ HostFault name.now)) }
    ensures causes { HasReadCauses result (H.seen host.old) (H.seen host.new) }
    ensures leaves { WritesFile name.now (H.seen host.old) (H.seen host.new) }
{
    let owned = Text::from_text(alloc, name)?;
    match host.open_image(alloc, name) {
        Ok(image) => Ok(image),
        Err(fault) => Err(after_host(owned, fault)),
    }
}

/// The name of a disk's file.
fn path_at(start: &Start, disk: usize) -> &str
    requires { disk < length start.now.plan.disks }
    ensures { result.now ≡ path_of start.entry.now.plan disk }
{
    start.plan.disks.at(disk).path.as_str()
}

/// Has the host lend the files of the disks from one on. At a refusal none of them is lent any more.
fn open_from<H: Host>(
    alloc: Global,
    host: &mut H,
    start: &Start,
    first: usize,
) -> Result<Vec<H::Image>, Refusal>
    requires within { first ≤ length start.now.plan.disks }
    requires count { length start.now.disks ≡ length start.now.plan.disks }
    requires apart { AreApart start.now.plan }
    requires disks { WhereTold (H.seen host.old).tells ((d : ℕ) → first ≤ d → d < length start.now.plan.disks
        → (H.seen host.old).file (path_of start.now.plan d) ≡ Some (slice_index_or start.now.disks d [])) }
    ensures opened { HasOpened H.Image.seen start.now first (λ v. v.items) result (H.seen host.old) (H.seen host.new) }
    ensures room { IfOk result (λ images. length start.now.plan.disks ≤ vec_capacity images) }
    ensures causes { HasReadCauses result (H.seen host.old) (H.seen host.new) }
{
    let count = start.plan.disks.len();
    if first == count {
        return Ok(Vec::with_capacity(alloc, count)?);
    }
    let path = path_at(start, first);
    let image = open_image(alloc, host, path)?;
    match open_from(alloc, host, start, first + 1) {
        Ok(mut images) => {
            images.insert(0, image).unwrap();
            Ok(images)
        }
        Err(refusal) => {
            host.close_image(path, image);
            Err(refusal)
        }
    }
}

/// Has the host lend the file of each disk of a start as an image, in order.
///
/// Each image reads as the start's disk, and none of its calls has failed yet. Where the host refuses one the refusal names its
/// file, and those before it are given back.
pub fn open_images<H: Host>(
    alloc: Global,
    host: &mut H,
    start: &Start,
) -> Result<Vec<H::Image>, Refusal>
    requires sound { IsSound start.now }
    requires apart { AreApart start.now.plan }
    requires disks { WhereTold (H.seen host.old).tells (AreFilesOf (H.seen host.old).file start.now) }
    ensures fresh { IfOk result (λ images. AreFresh H.Image.seen start.now.disks images.items) }
    ensures told { IfOk result (λ images. All (λ i. (H.Image.seen i).tells ≡ (H.seen host.old).tells) images.items) }
    ensures stand { WhereTold (H.seen host.old).tells (OnOk result (AllStand (H.seen host.new).file start.now.plan)) }
    ensures refusal { IfErr result (λ e. (e ≡ Memory) ⊎ ((d : ℕ) × (d < length start.now.plan.disks) × (e ≡ HostFault (path_of start.now.plan d)))) }
    ensures closed { WhereTold (H.seen host.old).tells (OnErr result ((q : List ℕ) → (H.seen host.new).file q ≡ (H.seen host.old).file q)) }
    ensures causes { HasReadCauses result (H.seen host.old) (H.seen host.new) }
    ensures leaves { WritesFiles (IsDiskOf start.now.plan) (H.seen host.old) (H.seen host.new) }
{
    open_from(alloc, host, start, 0)
}

/// Gives the images of the first disks back, the last one first.
fn close_first<H: Host>(host: &mut H, start: &Start, mut homes: Vec<Option<H::Image>>)
    requires few { length homes.items ≤ length start.now.plan.disks }
    requires apart { AreApart start.now.plan }
    requires stand { WhereTold (H.seen host.old).tells ((d : ℕ) → d < length homes.items → IsSome ((H.seen host.old).file (path_of start.now.plan d))) }
    ensures { HasClosed H.Image.seen start.now.plan homes.items (H.seen host.old) (H.seen host.new) }
{
    let Some(home) = homes.pop() else {
        return;
    };
    let name = path_at(start, homes.len());
    match home {
        Some(image) => host.close_image(name, image),
        None => {}
    }
    close_first(host, start, homes);
}

/// Gives the images of a start's disks back, those that are at hand; one that isn't is `None`.
///
/// The file of each then reads as its image did, and the other files stay. `image_faults` rises exactly where one of the images
/// has failed.
pub fn close_images<H: Host>(host: &mut H, start: &Start, images: Vec<Option<H::Image>>)
    requires count { length images.items ≡ length start.now.plan.disks }
    requires apart { AreApart start.now.plan }
    requires stand { WhereTold (H.seen host.old).tells (AllStand (H.seen host.old).file start.now.plan) }
    ensures content { WhereTold (H.seen host.old).tells ((d : ℕ) (image : H.Image) → slice_index_or images.items d None ≡ Some image
        → WhereTold (H.Image.seen image).tells ((H.seen host.new).file (path_of start.now.plan d) ≡ Some (H.Image.seen image).content)) }
    ensures image_faults { RoseExactly (HasFailed H.Image.seen images.items) (H.seen host.old).image_faults (H.seen host.new).image_faults }
    ensures counts { SameCounts (H.seen host.old) (H.seen host.new) }
    ensures leaves { LeavesHost (IsGivenBack start.now.plan images.items) (H.seen host.old) (H.seen host.new) }
{
    close_first(host, start, images);
}
