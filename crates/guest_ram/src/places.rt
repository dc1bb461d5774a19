//! The pages of a memory, of which some are absent: a list of places.
ghost use Rattle.std.specs.Prelude.{◌≡◌, ℕ, ◌+◌, ◌-◌, ◌*◌, ◌/◌, ◌%◌, ◌<◌, ◌≤◌, ◌++◌, Bool, false, true, length, take, drop, min, replicate, is_some, map, slice_index, slice_index_or, All, IfOk, OnOk, IfSome, IsSome};
ghost use Rattle.guest_ram.specs.GuestRam.{Stand};
ghost use Rattle.guest_ram.specs.Pages.{AreZero, ArePages, IsWritten, standing_at, bytes_of, page_of, standing_of, zero_page, written_in, written_to};

use crate::page::{PAGE_SIZE, Page};
use std::alloc::Global;
use vm_law::OutOfMemory;

/// So many places that read as the payload and zeros behind it. The pages that hold a byte of it stand.
pub fn loaded(alloc: Global, count: usize, payload: &[u8]) -> Result<Vec<Option<Page>>, OutOfMemory>
    requires fits { length payload.now ≤ 4096 * count }
    requires count { count ≤ 262144 }
    ensures count { IfOk result (λ v. length v.items ≡ count) }
    ensures pages { IfOk result (λ v. ArePages v.items) }
    ensures bytes { IfOk result (λ v. bytes_of v.items ≡ payload.now ++ replicate (4096 * count - length payload.now) 0) }
    ensures standing { IfOk result (λ v. Stand (replicate count false) (standing_of v.items) 0 (length payload.now)) }
{
    let mut places = Vec::with_capacity(alloc, count)?;
    let mut done = 0;
    while done < payload.len() {
        let size = (payload.len() - done).min(PAGE_SIZE);
        let mut page = Page::zeroed(alloc)?;
        page.write(0, &payload[done..done + size]);
        places.push(Some(page))?;
        done += size;
    }
    fill(&mut places, count)?;
    Ok(places)
}

/// Appends absent pages up to a count.
fn fill(places: &mut Vec<Option<Page>>, count: usize) -> Result<(), OutOfMemory>
    requires { length places.old.items ≤ count }
    ensures { OnOk result (places.new.items ≡ places.old.items ++ replicate (count - length places.old.items) None) }
{
    for _number in places.len()..count {
        places.push(None)?;
    }
    Ok(())
}

/// Equal places.
pub fn copied(alloc: Global, places: &[Option<Page>]) -> Result<Vec<Option<Page>>, OutOfMemory>
    ensures { IfOk result (λ v. v.items ≡ places.now) }
{
    let mut copy = Vec::with_capacity(alloc, places.len())?;
    for place in places {
        copy.push(copy_of(alloc, place)?)?;
    }
    Ok(copy)
}

/// An equal place.
fn copy_of(alloc: Global, place: &Option<Page>) -> Result<Option<Page>, OutOfMemory>
    ensures { IfOk result (λ p. p ≡ place.now) }
{
    match place {
        Some(page) => Ok(Some(page.copy(alloc)?)),
        None => Ok(None),
    }
}

/// The page at a place, if it stands.
pub fn page(places: &[Option<Page>], number: usize) -> Option<&[u8; 4096]>
    ensures stands { is_some result ≡ slice_index_or (standing_of places.now) number false }
    ensures lends { ArePages places.now → IfSome result (λ page. page.now ≡ take 4096 (drop (4096 * number) (bytes_of places.now))) }
{
    if number >= places.len() {
        return None;
    }
    match &places[number] {
        Some(page) => Some(page.bytes()),
        None => None,
    }
}

/// Makes room for at least so many pages.
pub fn add_room(alloc: Global, room: &mut Vec<Page>, pages: usize) -> Result<(), OutOfMemory>
    requires { AreZero room.old.items }
    ensures zero { AreZero room.new.items }
    ensures ok { OnOk result (pages ≤ length room.new.items) }
    ensures kept { length room.old.items ≤ length room.new.items }
{
    for _count in room.len()..pages {
        room.push(Page::zeroed(alloc)?)?;
    }
    Ok(())
}

/// Copies bytes that lie in one page.
#[inline(always)]
fn read_in(place: &Option<Page>, offset: usize, into: &mut [u8])
    requires page { length (page_of place.now) ≡ 4096 }
    requires inside { offset + length into.old ≤ 4096 }
    ensures { into.new ≡ take (length into.old) (drop offset (page_of place.now)) }
{
    match place {
        Some(page) => into.copy_from_slice(&page.bytes()[offset..offset + into.len()]),
        None => into.fill(0),
    }
}

/// Copies the bytes from an address on.
#[inline(always)]
pub fn read(places: &[Option<Page>], at: usize, into: &mut [u8])
    requires pages { ArePages places.now }
    requires inside { at + length into.old ≤ 4096 * length places.now }
    requires few { length places.now ≤ 262144 }
    ensures { into.new ≡ take (length into.old) (drop at (bytes_of places.now)) }
{
    if into.is_empty() {
        return;
    }
    let offset = at % PAGE_SIZE;
    if into.len() <= PAGE_SIZE - offset {
        read_in(&places[at / PAGE_SIZE], offset, into);
    } else {
        read_across(places, at, into);
    }
}

/// The same, page by page.
#[inline(never)]
fn read_across(places: &[Option<Page>], at: usize, into: &mut [u8])
    requires pages { ArePages places.now }
    requires inside { at + length into.old ≤ 4096 * length places.now }
    requires few { length places.now ≤ 262144 }
    ensures { into.new ≡ take (length into.old) (drop at (bytes_of places.now)) }
{
    let mut done = 0;
    while done < into.len() {
        let from = at + done;
        let offset = from % PAGE_SIZE;
        let size = (into.len() - done).min(PAGE_SIZE - offset);
        read_in(
            &places[from / PAGE_SIZE],
            offset,
            &mut into[done..done + size],
        );
        done += size;
    }
}

/// Makes the page at a place stand, with a page of the room where it is absent.
#[inline(always)]
pub fn make_stand(places: &mut Vec<Option<Page>>, room: &mut Vec<Page>, number: usize)
    requires place { number < length places.old.items }
    requires room { 1 ≤ length room.old.items }
    requires zero { AreZero room.old.items }
    ensures places { places.new.items ≡ standing_at places.old.items number }
    ensures zero { AreZero room.new.items }
    ensures left { length room.old.items ≤ length room.new.items + 1 }
{
    if places[number].is_none() {
        take_page(places, room, number);
    }
}

/// Puts a page of the room at an absent place.
#[inline(never)]
fn take_page(places: &mut Vec<Option<Page>>, room: &mut Vec<Page>, number: usize)
    requires place { number < length places.old.items }
    requires absent { slice_index_or places.old.items number None ≡ None }
    requires room { 1 ≤ length room.old.items }
    requires zero { AreZero room.old.items }
    ensures places { places.new.items ≡ standing_at places.old.items number }
    ensures zero { AreZero room.new.items }
    ensures left { length room.old.items ≤ length room.new.items + 1 }
{
    places[number] = room.pop();
}

/// Writes a piece into a page that stands.
#[inline(always)]
fn write_in(place: &mut Option<Page>, offset: usize, piece: &[u8])
    requires stands { IsSome place.old }
    requires inside { offset + length piece.now ≤ 4096 }
    ensures { place.new ≡ Some (written_in (page_of place.old) offset piece.now) }
{
    if let Some(page) = place {
        page.write(offset, piece);
    }
}

/// Writes a piece into a page that stands.
#[inline(always)]
fn put(places: &mut Vec<Option<Page>>, number: usize, offset: usize, piece: &[u8])
    requires place { number < length places.old.items }
    requires stands { IsSome (slice_index_or places.old.items number None) }
    requires page { offset + length piece.now ≤ 4096 }
    ensures { places.new.items ≡ written_to places.old.items number offset piece.now }
{
    write_in(&mut places[number], offset, piece);
}

/// Writes a piece that lies in one page, and makes that page stand.
#[inline(always)]
fn write_within(places: &mut Vec<Option<Page>>, room: &mut Vec<Page>, at: usize, piece: &[u8])
    requires pages { ArePages places.old.items }
    requires zero { AreZero room.old.items }
    requires some { 0 < length piece.now }
    requires page { at % 4096 + length piece.now ≤ 4096 }
    requires inside { at < 4096 * length places.old.items }
    requires room { 1 ≤ length room.old.items }
    ensures written { IsWritten places.old.items places.new.items at piece.now }
    ensures zero { AreZero room.new.items }
    ensures left { length room.old.items ≤ length room.new.items + 1 }
{
    make_stand(places, room, at / PAGE_SIZE);
    put(places, at / PAGE_SIZE, at % PAGE_SIZE, piece);
}

/// Writes a piece that lies in two pages, and makes both stand.
#[inline(never)]
fn write_across(places: &mut Vec<Option<Page>>, room: &mut Vec<Page>, at: usize, piece: &[u8])
    requires pages { ArePages places.old.items }
    requires zero { AreZero room.old.items }
    requires across { 4096 < at % 4096 + length piece.now }
    requires short { length piece.now ≤ 512 }
    requires inside { at + length piece.now ≤ 4096 * length places.old.items }
    requires few { length places.old.items ≤ 262144 }
    requires room { 2 ≤ length room.old.items }
    ensures written { IsWritten places.old.items places.new.items at piece.now }
    ensures zero { AreZero room.new.items }
    ensures left { length room.old.items ≤ length room.new.items + 2 }
{
    let left = PAGE_SIZE - at % PAGE_SIZE;
    let (head, tail) = piece.split_at(left);
    write_within(places, room, at, head);
    write_within(places, room, at + left, tail);
}

/// Writes a piece that lies in at most two pages, and makes those that it touches stand.
#[inline(always)]
pub fn write(places: &mut Vec<Option<Page>>, room: &mut Vec<Page>, at: usize, piece: &[u8])
    requires pages { ArePages places.old.items }
    requires zero { AreZero room.old.items }
    requires short { length piece.now ≤ 512 }
    requires inside { at + length piece.now ≤ 4096 * length places.old.items }
    requires few { length places.old.items ≤ 262144 }
    requires room { 2 ≤ length room.old.items }
    ensures written { IsWritten places.old.items places.new.items at piece.now }
    ensures zero { AreZero room.new.items }
    ensures left { length room.old.items ≤ length room.new.items + 2 }
{
    if piece.is_empty() {
        return;
    }
    if piece.len() <= PAGE_SIZE - at % PAGE_SIZE {
        write_within(places, room, at, piece);
    } else {
        write_across(places, room, at, piece);
    }
}
