//! Files in memory. Each change is kept, the newest first, with what its file reads as after it.
ghost use Rattle.std.specs.Prelude.{◌≡◌, ◌<◌, ◌≤◌, ℕ, [], ◌∷◌, ◌++◌, List, length, true, false, Option, Some, None, Result, Ok, Err, OnOk, OnErr, IfOk, IsOk, IsSome, IsSomeAnd, IfSome, option_map, MatchOption, slice_index_or, slice_set, if◌then◌else◌, IsErrOf};
ghost use Rattle.vm_host.specs.Told.{WhereTold};
ghost use Rattle.vm_host.specs.Counts.{HasCause, SameCounts, RoseExactly};
ghost use Rattle.vm_host.specs.Files.{LeavesOthers, ReadsFrom, Written};
ghost use Rattle.vm_host.specs.Crash.{ReadsNow, AddsTorn, Makes, Only};
ghost use Rattle.vm_host.specs.Leaves.{ReadsHost, WritesFile, LeavesHost};
ghost use Rattle.vm_host.specs.Past.{Change, file_of, Reads, LeftSince, made_at, given_back};
ghost use Rattle.vm_host.specs.Kinds.{lent_of};
ghost use Rattle.vm_host.specs.MemState.{host_view, IsListed, is_listed, IsNumbered, FailsWhereListed, FailsOnlyListed, after_call, failed_after, no_calls, one_more, calls_of, calls_of_others};

use crate::calls::Calls;
use crate::event::{Event, Kind};
use crate::failed_name::FailedName;
use crate::host::{Host, HostFault};
use crate::image_calls::{ImageCall, listed_for, take_off};
use crate::mem_image::MemImage;
use crate::overwrite::overwritten;
use std::alloc::Global;
use std::marker::Model;
use vm_law::OutOfMemory;

/// Files in memory. It tells its files.
///
/// Its calls of [`Host`] that answer a `Result` are numbered from 0. One that is listed answers
/// `Failed` whatever else it would answer, keeps its name and changes no file; no other call
/// answers that.
#[derive(Drop)]
pub struct MemHost {
    alloc: Global,
    past: Vec<Event>,
    calls: Calls,
    failing_images: Vec<ImageCall>,
    misses: u64,
    failed: FailedName,
    image_faults: u64,
}

impl Model for MemHost {
    ghost use Rattle.vm_host.specs.MemState.{HostState};
    ghost use Rattle.vm_host.specs.Past.{Reads};

    ghost Value = { HostState };

    ghost view = { λ m. record { past = m.past.items; calls = m.calls; failing_images = m.failing_images.items; misses = m.misses; failed = m.failed; image_faults = m.image_faults } };

    ghost invariant = { λ m. Reads m.past.items };
}

impl MemHost {
    /// A host without files, whose next call is number 0 and whose counts are 0. It keeps the
    /// allocator.
    pub fn new(alloc: Global) -> MemHost
        ensures { result ≡ record { past = []; calls = no_calls []; failing_images = []; misses = 0; failed = []; image_faults = 0 } }
    {
        MemHost {
            alloc,
            past: Vec::new(alloc),
            calls: Calls::new(alloc),
            failing_images: Vec::new(alloc),
            misses: 0,
            failed: FailedName::new(),
            image_faults: 0,
        }
    }

    /// Puts a file of these bytes in the place of what that name had. It is all on the disk: a
    /// crash leaves it.
    ///
    /// It is no call that is numbered. After `OutOfMemory` nothing has changed.
    pub fn put(&mut self, alloc: Global, name: &str, bytes: &[u8]) -> Result<(), OutOfMemory>
        ensures put { OnOk result (file_of self.new.past name.now ≡ Some bytes.now) }
        ensures durable { OnOk result (Only bytes.now (LeftSince self.new.past name.now (length self.new.past))) }
        ensures others { LeavesOthers (λ q. q ≡ name.now) (file_of self.old.past) (file_of self.new.past) }
        ensures made { made_at self.new.past ≡ made_at self.old.past }
        ensures rest { self.new ≡ record self.old { past = self.new.past } }
        ensures err { OnErr result (self.new ≡ self.old) }
    {
        let bytes = bytes.to_vec(alloc)?;
        self.remember(name, bytes, Kind::Held)
    }

    /// Lists the call of this number as one that is to fail. After `OutOfMemory` nothing has
    /// changed.
    pub fn fail(&mut self, _alloc: Global, call: u64) -> Result<(), OutOfMemory>
        ensures listed { OnOk result (self.new ≡ record self.old {
          calls = record self.old.calls { failing = self.old.calls.failing ++ call ∷ [] };
        }) }
        ensures err { OnErr result (self.new ≡ self.old) }
    {
        self.calls.fail(call)
    }

    /// Lists a call of the image of that file that is opened next as one that is to fail. The calls
    /// of each image are numbered from 0. After `OutOfMemory` nothing has changed.
    pub fn fail_image(&mut self, alloc: Global, name: &str, call: u64) -> Result<(), OutOfMemory>
        ensures listed { OnOk result (self.new ≡ record self.old {
          failing_images = self.old.failing_images ++ record { name = name.now; call = call } ∷ [];
        }) }
        ensures err { OnErr result (self.new ≡ self.old) }
    {
        let listed = ImageCall::new(alloc, name, call)?;
        self.failing_images.push(listed)?;
        Ok(())
    }

    /// The bytes of the file of a name. `None` comes exactly where there is none.
    pub fn file(&self, name: &str) -> Option<&[u8]>
        ensures { option_map (λ bytes. bytes.now) result ≡ file_of self.now.past name.now }
    {
        for event in &self.past {
            if name == event.name.as_str() {
                return Some(event.bytes.as_slice());
            }
        }
        None
    }

    /// The name, cut off at 4,096 bytes, that the last call that answered `Failed` was about. None
    /// has, where it is empty.
    pub fn failed(&self) -> &[u8]
        ensures { result.now ≡ self.now.failed }
    {
        self.failed.as_bytes()
    }

    /// Takes the number of a call on this name. Where it is listed it counts a fault and keeps the
    /// name.
    #[tactic(auto, using(crate::proofs::Pasts::reads_now))]
    fn call_fails(&mut self, name: &str) -> bool
        ensures listed { result ≡ is_listed self.old.calls }
        ensures after { self.new ≡ record self.old {
          calls = after_call result self.old.calls;
          failed = failed_after result name.now self.old.failed;
        } }
        ensures reads { ReadsNow (host_view self.new) }
    {
        let fails = self.calls.next_fails();
        if fails {
            self.failed.set(name);
        }
        fails
    }

    /// Counts a file that is missing.
    #[tactic(auto, using(crate::proofs::Pasts::reads_now))]
    fn miss(&mut self)
        ensures reads { ReadsNow (host_view self.new) }
        ensures after { self.new ≡ record self.old { misses = one_more self.old.misses } }
    {
        self.misses = self.misses.saturating_add(1);
    }

    /// Counts an image that came back, where it has faults.
    fn count_image(&mut self, faulty: bool)
        ensures { self.new ≡ record self.old {
          image_faults = if faulty then one_more self.old.image_faults else self.old.image_faults;
        } }
    {
        if faulty {
            self.image_faults = self.image_faults.saturating_add(1);
        }
    }

    /// Takes back the bytes of a file that was lent.
    fn give_back(&mut self, name: &str, bytes: Vec<u8>)
        requires { IsSome (file_of self.old.past name.now) }
        ensures after { self.new ≡ record self.old { past = given_back self.old.past name.now bytes.items } }
        ensures reads { ReadsNow (host_view self.new) }
    {
        if let Some(place) = place_of(&self.past, name) {
            let event = &mut self.past[place];
            event.kind = event.kind.lent();
            event.bytes = bytes;
        }
    }

    /// Keeps a change.
    #[tactic(auto, using(crate::proofs::Pasts::reads_now))]
    fn remember(&mut self, name: &str, bytes: Vec<u8>, kind: Kind) -> Result<(), OutOfMemory>
        requires { Reads self.old.past → Reads (record { name = name.now; bytes = bytes.items; kind = kind } ∷ self.old.past) }
        ensures ok { OnOk result (self.new ≡ record self.old {
          past = record { name = name.now; bytes = bytes.items; kind = kind } ∷ self.old.past;
        }) }
        ensures err { OnErr result (self.new ≡ self.old) }
        ensures reads { ReadsNow (host_view self.new) }
    {
        let name = String::from_str(self.alloc, name)?;
        self.past.insert(0, Event::new(name, bytes, kind))?;
        Ok(())
    }

    /// Takes the calls off the list that were listed for the image of a file.
    #[tactic(auto, using(crate::proofs::Pasts::reads_now))]
    fn take_off_image(&mut self, name: &str)
        ensures after { self.new ≡ record self.old { failing_images = calls_of_others self.old.failing_images name.now } }
        ensures reads { ReadsNow (host_view self.new) }
    {
        take_off(&mut self.failing_images, name);
    }
}

impl Host for MemHost {
    type Image = MemImage;

    ghost use Rattle.vm_host.specs.PastLaws.{made_at-le, since_earlier};

    ghost seen = { host_view };

    ghost made_before = { λ m q _. made_at-le m.past q };

    ghost since_earlier = { λ m _. since_earlier m.past };

    ghost images_tell = { λ m image told. told };

    fn length(&mut self, name: &str) -> Result<u64, HostFault>
        ensures listed { FailsWhereListed name.now self.old self.new result }
        ensures unlisted { FailsOnlyListed self.old result }
        ensures numbered { IsNumbered self.old self.new }
        ensures other_calls { self.new.failing_images ≡ self.old.failing_images }
        ensures kept { self.new.past ≡ self.old.past }
        ensures answer { (IsListed self.old.calls → ⊥) → MatchOption (file_of self.old.past name.now)
            (result ≡ Err HostFault.Missing) (λ f. result ≡ Ok (length f)) }
        ensures value { WhereTold true
            (IfOk result (λ n. IsSomeAnd (file_of self.old.past name.now) (λ f. n ≡ length f))) }
        ensures missing { WhereTold true
            (IsErrOf result HostFault.Missing → file_of self.old.past name.now ≡ None) }
        ensures cause { HasCause name.now (host_view self.old) (host_view self.new) result }
        ensures leaves { ReadsHost (host_view self.old) (host_view self.new) }
        ensures reads { WhereTold true (ReadsNow (host_view self.new)) }
    {
        if self.call_fails(name) {
            return Err(HostFault::Failed);
        }
        let Some(bytes) = self.file(name) else {
            self.miss();
            return Err(HostFault::Missing);
        };
        Ok(bytes.len() as u64)
    }

    fn read_at(&mut self, name: &str, at: u64, into: &mut [u8]) -> Result<usize, HostFault>
        ensures listed { FailsWhereListed name.now self.old self.new result }
        ensures unlisted { FailsOnlyListed self.old result }
        ensures numbered { IsNumbered self.old self.new }
        ensures other_calls { self.new.failing_images ≡ self.old.failing_images }
        ensures kept { self.new.past ≡ self.old.past }
        ensures answer { (IsListed self.old.calls → ⊥) → MatchOption (file_of self.old.past name.now)
            (result ≡ Err HostFault.Missing) (λ f. IsOk result) }
        ensures within { IfOk result (λ n. n ≤ length into.old) }
        ensures value { WhereTold true
            (IfOk result (λ n. IsSomeAnd (file_of self.old.past name.now) (λ f. ReadsFrom f at into.new n))) }
        ensures missing { WhereTold true
            (IsErrOf result HostFault.Missing → file_of self.old.past name.now ≡ None) }
        ensures cause { HasCause name.now (host_view self.old) (host_view self.new) result }
        ensures leaves { ReadsHost (host_view self.old) (host_view self.new) }
        ensures reads { WhereTold true (ReadsNow (host_view self.new)) }
    {
        if self.call_fails(name) {
            return Err(HostFault::Failed);
        }
        let Some(bytes) = self.file(name) else {
            self.miss();
            return Err(HostFault::Missing);
        };
        Ok(read_from(bytes, at as usize, into))
    }

    fn make(&mut self, _alloc: Global, name: &str) -> Result<(), HostFault>
        ensures listed { FailsWhereListed name.now self.old self.new result }
        ensures unlisted { FailsOnlyListed self.old result }
        ensures numbered { IsNumbered self.old self.new }
        ensures other_calls { self.new.failing_images ≡ self.old.failing_images }
        ensures refused { OnErr result (self.new.past ≡ self.old.past) }
        ensures empty { WhereTold true (OnOk result (file_of self.new.past name.now ≡ Some [])) }
        ensures crash { WhereTold true
            (OnOk result (Only [] (LeftSince self.new.past name.now (length self.new.past)))) }
        ensures made { WhereTold true
            (Makes name.now (host_view self.old) (host_view self.new) result) }
        ensures cause { HasCause name.now (host_view self.old) (host_view self.new) result }
        ensures not_missing { IsErrOf result HostFault.Missing → ⊥ }
        ensures leaves { WritesFile name.now (host_view self.old) (host_view self.new) }
        ensures reads { WhereTold true (ReadsNow (host_view self.new)) }
    {
        if self.call_fails(name) {
            return Err(HostFault::Failed);
        }
        self.remember(name, Vec::new(self.alloc), Kind::Made)?;
        Ok(())
    }

    fn write_at(
        &mut self,
        alloc: Global,
        name: &str,
        at: u64,
        piece: &[u8],
    ) -> Result<(), HostFault>
        requires { WhereTold true (IsSome (file_of self.old.past name.now)) }
        ensures listed { FailsWhereListed name.now self.old self.new result }
        ensures unlisted { FailsOnlyListed self.old result }
        ensures numbered { IsNumbered self.old self.new }
        ensures other_calls { self.new.failing_images ≡ self.old.failing_images }
        ensures refused { OnErr result (self.new.past ≡ self.old.past) }
        ensures written { WhereTold true (OnOk result
            (Written (file_of self.old.past name.now) at piece.now (file_of self.new.past name.now))) }
        ensures stands { WhereTold true (IsSome (file_of self.new.past name.now)) }
        ensures crash { WhereTold true (AddsTorn at (length piece.now)
            (LeftSince self.old.past name.now (length self.old.past))
            (LeftSince self.new.past name.now (length self.old.past))) }
        ensures made { WhereTold true (made_at self.new.past ≡ made_at self.old.past) }
        ensures cause { HasCause name.now (host_view self.old) (host_view self.new) result }
        ensures not_missing { IsErrOf result HostFault.Missing → ⊥ }
        ensures leaves { WritesFile name.now (host_view self.old) (host_view self.new) }
        ensures reads { WhereTold true (ReadsNow (host_view self.new)) }
    {
        if self.call_fails(name) {
            return Err(HostFault::Failed);
        }
        let Some(bytes) = self.file(name) else {
            return Err(HostFault::Memory);
        };
        let next = overwritten(alloc, bytes, at as usize, piece)?;
        let len = piece.len() as u64;
        self.remember(name, next, Kind::Wrote { at, len })?;
        Ok(())
    }

    fn sync(&mut self, name: &str) -> Result<(), HostFault>
        requires { WhereTold true (IsSome (file_of self.old.past name.now)) }
        ensures listed { FailsWhereListed name.now self.old self.new result }
        ensures unlisted { FailsOnlyListed self.old result }
        ensures numbered { IsNumbered self.old self.new }
        ensures other_calls { self.new.failing_images ≡ self.old.failing_images }
        ensures refused { OnErr result (self.new.past ≡ self.old.past) }
        ensures durable { WhereTold true (OnOk result
            (IfSome (file_of self.old.past name.now) (λ f. Only f (LeftSince self.new.past name.now (length self.new.past))))) }
        ensures cause { HasCause name.now (host_view self.old) (host_view self.new) result }
        ensures not_missing { IsErrOf result HostFault.Missing → ⊥ }
        ensures leaves { ReadsHost (host_view self.old) (host_view self.new) }
        ensures reads { WhereTold true (ReadsNow (host_view self.new)) }
    {
        if self.call_fails(name) {
            return Err(HostFault::Failed);
        }
        let Some(bytes) = self.file(name) else {
            return Err(HostFault::Memory);
        };
        let same = bytes.to_vec(self.alloc)?;
        self.remember(name, same, Kind::Held)?;
        Ok(())
    }

    fn open_image(&mut self, alloc: Global, name: &str) -> Result<MemImage, HostFault>
        requires { WhereTold true (IsSome (file_of self.old.past name.now)) }
        ensures listed { FailsWhereListed name.now self.old self.new result }
        ensures unlisted { FailsOnlyListed self.old result }
        ensures numbered { IsNumbered self.old self.new }
        ensures image_calls { IfOk result (λ i. i.calls ≡ no_calls (calls_of self.old.failing_images name.now)) }
        ensures taken_off { OnOk result (self.new.failing_images ≡ calls_of_others self.old.failing_images name.now) }
        ensures kept { OnErr result (self.new.past ≡ self.old.past) }
        ensures image_told { IfOk result (λ i. true ≡ true) }
        ensures image { WhereTold true
            (IfOk result (λ i. file_of self.old.past name.now ≡ Some i.bytes)) }
        ensures fresh { IfOk result (λ i. (i.calls.faults ≡ 0) × (i.syncs ≡ 0)) }
        ensures stands { WhereTold true (OnOk result (IsSome (file_of self.new.past name.now))) }
        ensures refused { WhereTold true
            (OnErr result (file_of self.new.past ≡ file_of self.old.past)) }
        ensures made { WhereTold true (made_at self.new.past ≡ made_at self.old.past) }
        ensures cause { HasCause name.now (host_view self.old) (host_view self.new) result }
        ensures not_missing { IsErrOf result HostFault.Missing → ⊥ }
        ensures leaves { WritesFile name.now (host_view self.old) (host_view self.new) }
        ensures reads { WhereTold true (ReadsNow (host_view self.new)) }
    {
        if self.call_fails(name) {
            return Err(HostFault::Failed);
        }
        let Some(bytes) = self.file(name) else {
            return Err(HostFault::Memory);
        };
        let lent = bytes.to_vec(alloc)?;
        let same = bytes.to_vec(alloc)?;
        let failing = listed_for(alloc, &self.failing_images, name)?;
        self.remember(name, same, Kind::Lent { made: false })?;
        self.take_off_image(name);
        Ok(MemImage::new(lent, failing))
    }

    fn close_image(&mut self, name: &str, image: MemImage)
        requires { WhereTold true (IsSome (file_of self.old.past name.now)) }
        ensures calls { self.new.calls ≡ self.old.calls }
        ensures other_calls { self.new.failing_images ≡ self.old.failing_images }
        ensures content { WhereTold true
            (WhereTold true (file_of self.new.past name.now ≡ Some image.bytes)) }
        ensures image_faults { RoseExactly (0 < image.calls.faults) self.old.image_faults self.new.image_faults }
        ensures made { WhereTold true (made_at self.new.past ≡ made_at self.old.past) }
        ensures counts { SameCounts (host_view self.old) (host_view self.new) }
        ensures leaves { LeavesHost (λ q. q ≡ name.now) (host_view self.old) (host_view self.new) }
        ensures reads { WhereTold true (ReadsNow (host_view self.new)) }
    {
        self.count_image(image.has_failed());
        self.give_back(name, image.into_bytes());
    }
}

/// The place of the newest change of a file.
fn place_of(past: &[Event], name: &str) -> Option<usize>
    ensures { MatchOption result ((b : List ℕ) → given_back past.now name.now b ≡ past.now)
        (λ i. (i < length past.now) × ((b : List ℕ) (e : Change) → e ≡ slice_index_or past.now i e
        → given_back past.now name.now b ≡ slice_set past.now i (record { name = e.name; bytes = b; kind = lent_of e.kind }))) }
{
    for (i, event) in past.iter().enumerate() {
        if name == event.name.as_str() {
            return Some(i);
        }
    }
    None
}

/// Copies the bytes from this offset on, as many as there are or fit.
fn read_from(bytes: &[u8], at: usize, into: &mut [u8]) -> usize
    ensures { ReadsFrom bytes.now at into.new result }
{
    if at >= bytes.len() {
        return 0;
    }
    let rest = &bytes[at..];
    let count = rest.len().min(into.len());
    into[..count].copy_from_slice(&rest[..count]);
    count
}
