//! The board.
ghost use Rattle.std.specs.Prelude.{◌≡◌, ◌≤◌, ◌<◌, ◌+◌, ◌*◌, true, false, [], ◌∷◌, ◌++◌, map, length, take, slice_index, slice_index_or, slice_set, Some, None, IfOk, OnOk};
ghost use Rattle.vm_law.specs.Memory.{code_of as code_part};
ghost use Rattle.x86_fetch.specs.Slices.{LocalRun};
ghost use Rattle.vm_state.specs.Machine.{code_of, cpu_at, cpu_count, drive_count};
ghost use Rattle.vm_state.specs.Start.{IsSound, boot};
ghost use Rattle.vm_board.specs.Board.{IsBoard};
ghost use Rattle.vm_table.specs.Rounds.{chosen};
ghost use Rattle.vm_board.specs.Calls.{Adds, ChoosesAtHome, IsSame, MayAdd, moves_image};
ghost use Rattle.vm_board.specs.Homes.{AreFresh, IsAtHome, held_sector};
ghost use Rattle.vm_board.specs.Pages.{page_of};
ghost use Rattle.vm_board.specs.Turn.{GoesOn, some_entry};

use crate::held::held_sector;
use std::alloc::Global;
use std::marker::Model;
use vm_host::Image;
use vm_law::{Bytes, Ctx, Entry, Journal, Logged, OutOfMemory, Seq, Signed};
use vm_state::Start;
use vm_table::Run;
use x86_fetch::CachedRam;

/// The bytes of a page of code.
const PAGE: usize = 4096;

/// A run with its journal and the images that are at home.
#[derive(Drop)]
pub struct Board<I: Image + Drop> {
    start: Start,
    run: Run,
    journal: Vec<Signed>,
    images: Seq<Option<I>>,
    starved: bool,
}

impl<I: Image + Drop> Model for Board<I> {
    ghost use Rattle.std.specs.Prelude.{◌-◌, min};
    ghost use Rattle.std.specs.Vec.{vec_len, vec_capacity};
    ghost use Rattle.vm_board.specs.View.{BoardView, board_code};
    ghost use Rattle.vm_board.specs.Board.{IsBoard};

    ghost Value = { BoardView I };

    ghost coded = { board_code I.code };

    ghost view = { λ b. record {
      start = b.start;
      state = b.run.state;
      journal = b.journal.items;
      images = b.images;
      room = min (vec_capacity b.journal - vec_len b.journal) b.run.room;
      starved = b.starved;
    } };

    ghost invariant = { λ b. IsBoard I.seen (record {
      start = b.start;
      state = b.run.state;
      journal = b.journal.items;
      images = b.images;
      room = min (vec_capacity b.journal - vec_len b.journal) b.run.room;
      starved = b.starved;
    }) };
}

/// It carries its journal from its start on.
impl<I: Image + Drop> Logged for Board<I> {
    type Root = Start;

    ghost root = { λ b. b.start };

    ghost entries = { λ b. b.journal };
}

/// Copies a page of the code, and says how many bytes it has.
fn copy_page(ram: &CachedRam, page: u32, into: &mut [u8; 4096]) -> usize
    requires { 4096 * page < ram.now.memory.code }
    ensures count { result ≡ length (page_of (code_part ram.now.memory) page) }
    ensures bytes { take result into.new ≡ page_of (code_part ram.now.memory) page }
{
    ram.is_sound();
    let at = PAGE as u64 * u64::from(page);
    let count = (ram.code() - at).min(PAGE as u64) as usize;
    ram.read(at, &mut into[..count]);
    count
}

/// Each image at home.
fn at_home<I: Image + Drop>(alloc: Global, images: Vec<I>) -> Result<Vec<Option<I>>, OutOfMemory>
    ensures { IfOk result (λ homes. homes.items ≡ map Some images.items) }
{
    let mut homes = Vec::new(alloc);
    for image in images {
        homes.push(Some(image))?;
    }
    Ok(homes)
}

impl<I: Image + Drop> Board<I> {
    /// A board at its start, with the image of each disk, of which each reads as the start's disk and has no counts yet.
    ///
    /// On `OutOfMemory` what was given is dropped.
    pub fn make(alloc: Global, start: Start, images: Vec<I>) -> Result<Board<I>, OutOfMemory>
        requires sound { IsSound start }
        requires fresh { AreFresh I.seen start.disks images.items }
        ensures start { IfOk result (λ b. b.start ≡ start) }
        ensures state { IfOk result (λ b. b.state ≡ boot start) }
        ensures journal { IfOk result (λ b. b.journal ≡ []) }
        ensures images { IfOk result (λ b. b.images ≡ map Some images.items) }
        ensures fed { IfOk result (λ b. b.starved ≡ false) }
    {
        let run = Run::begin(alloc, &start)?;
        let images = Seq::from_vec(at_home(alloc, images)?);
        Ok(Board {
            start,
            run,
            journal: Vec::new(alloc),
            images,
            starved: false,
        })
    }

    /// What holds of every board: its journal is a history of the machine from its start on, in which each pass added what it
    /// adds in an orderly turn, its run is the last state, and each image is at home or out.
    pub fn is_sound(&self)
        ensures { IsBoard I.seen self.now }
    {
        let _run = &self.run;
    }

    /// What the run started from.
    pub fn start(&self) -> &Start
        ensures { result.now ≡ self.now.start }
    {
        &self.start
    }

    /// The run.
    pub fn run(&self) -> &Run
        ensures { result.now.state ≡ self.now.state }
    {
        &self.run
    }

    /// The entries since the start, in order.
    pub fn journal(&self) -> &[Signed]
        ensures { result.now ≡ self.now.journal }
    {
        self.journal.as_slice()
    }

    /// Makes room for so many entries. Nothing else changes, and no room is lost where memory ran out.
    #[inline(always)]
    pub fn reserve(&mut self, alloc: Global, count: usize) -> Result<(), OutOfMemory>
        ensures same { IsSame self.old self.new }
        ensures ok { OnOk result (count ≤ self.new.room) }
        ensures kept { self.old.room ≤ self.new.room }
    {
        self.journal.reserve(count)?;
        self.run.reserve(alloc, count)
    }

    /// Adds an entry, and makes its step. It moves no image.
    pub fn add(&mut self, by: u16, entry: Entry)
        requires may { MayAdd self.old.state (record { by = by; entry = entry }) }
        requires kind { moves_image entry ≡ false }
        requires room { 1 ≤ self.old.room }
        ensures added { Adds self.old self.new (record { by = by; entry = entry }) }
        ensures images { self.new.images ≡ self.old.images }
    {
        self.run.apply(by, &entry);
        self.journal.push_reserved(Signed { by, entry });
    }

    /// Adds what an actor chooses in its turn, the first entry of its pass's list that is lawful, and says whether there is one.
    /// It moves no image.
    pub fn add_first(&mut self, by: u16) -> bool
        requires home { ChoosesAtHome self.old.state by }
        requires room { 1 ≤ self.old.room }
        ensures goes_on { GoesOn self.old self.new (chosen self.old.state by) }
        ensures some { result ≡ some_entry (chosen self.old.state by) }
        ensures images { self.new.images ≡ self.old.images }
    {
        match self.run.advance_first(by) {
            Some(entry) => {
                self.journal.push_reserved(Signed { by, entry });
                true
            }
            None => false,
        }
    }

    /// The registers of a vCPU.
    pub fn lease(&self, cpu: u8) -> Ctx
        requires { cpu < cpu_count self.now.state.machine }
        ensures { result ≡ (cpu_at self.now.state.machine cpu).ctx }
    {
        self.run.cpu(cpu).ctx
    }

    /// Adds a Slice of `n` instructions, whose registers after it were computed elsewhere.
    pub fn commit(&mut self, by: u16, cpu: u8, n: u16, ctx: Ctx)
        requires may { MayAdd self.old.state (record { by = by; entry = Entry.Slice cpu n }) }
        requires ran { LocalRun (code_of self.old.state.machine) (cpu_at self.old.state.machine cpu).ctx n ctx }
        requires room { 1 ≤ self.old.room }
        ensures added { Adds self.old self.new (record { by = by; entry = Entry.Slice cpu n }) }
        ensures images { self.new.images ≡ self.old.images }
    {
        self.run.put_slice(by, cpu, n, ctx);
        let entry = Entry::Slice { cpu, n };
        self.journal.push_reserved(Signed { by, entry });
    }

    /// How often an instruction stored into a page of the code, by the page's number from 0.
    pub fn version(&self, page: u32) -> u64
        requires { page < length self.now.state.versions }
        ensures { result ≡ slice_index self.now.state.versions page }
    {
        self.run.version(page)
    }

    /// Copies the bytes of a page of the code, and says how many there are: 4,096, or fewer of the last page.
    pub fn code_page(&self, page: u32, into: &mut [u8; 4096]) -> usize
        requires { page < length self.now.state.versions }
        ensures count { result ≡ length (page_of (code_of self.now.state.machine) page) }
        ensures bytes { take result into.new ≡ page_of (code_of self.now.state.machine) page }
    {
        self.run.is_sound();
        copy_page(&self.run.machine().ram, page, into)
    }

    /// Takes the image of a disk for the next sector of a write, or for a flush, and adds that Hold. Answers the sector's number
    /// and its bytes, or none for a flush, and the image.
    pub fn take_image(&mut self, by: u16, disk: u8, id: u32) -> (Option<(u64, [u8; 512])>, I)
        requires may { MayAdd self.old.state (record { by = by; entry = Entry.Hold disk id }) }
        requires room { 1 ≤ self.old.room }
        ensures added { Adds self.old self.new (record { by = by; entry = Entry.Hold disk id }) }
        ensures sector { result.0 ≡ held_sector self.new.state disk id }
        ensures image { slice_index_or self.old.images disk None ≡ Some result.1 }
        ensures images { self.new.images ≡ slice_set self.old.images disk None }
        ensures home { IsAtHome self.new.start self.new.journal disk (I.seen result.1) }
    {
        self.run.is_sound();
        let entry = Entry::Hold { disk, id };
        self.run.apply(by, &entry);
        self.journal.push_reserved(Signed { by, entry });
        let image = self.images.at_mut(disk as usize).take().unwrap();
        (held_sector(&self.run, by, disk, id), image)
    }

    /// Brings the image of a disk back, and adds that Put: `ok` says whether the call on it succeeded.
    pub fn give_image(&mut self, by: u16, disk: u8, id: u32, ok: bool, image: I)
        requires may { MayAdd self.old.state (record { by = by; entry = Entry.Put disk id ok }) }
        requires room { 1 ≤ self.old.room }
        requires home { IsAtHome self.old.start (self.old.journal ++ (record { by = by; entry = Entry.Put disk id ok }) ∷ []) disk (I.seen image) }
        ensures added { Adds self.old self.new (record { by = by; entry = Entry.Put disk id ok }) }
        ensures images { self.new.images ≡ slice_set self.old.images disk (Some image) }
    {
        self.run.is_sound();
        let entry = Entry::Put { disk, id, ok };
        self.run.apply(by, &entry);
        self.journal.push_reserved(Signed { by, entry });
        self.images.set(disk as usize, Some(image));
    }

    /// Notes that memory was wanted. Nothing else changes.
    pub fn starve(&mut self)
        ensures { self.new ≡ record self.old { starved = true } }
    {
        self.starved = true;
    }

    /// Whether memory was wanted.
    pub fn starved(&self) -> bool
        ensures { result ≡ self.now.starved }
    {
        self.starved
    }

    /// The start, the journal, the run, and each image that is at home.
    pub fn into_parts(self) -> (Start, Journal, Run, Vec<Option<I>>)
        ensures start { result.0 ≡ self.start }
        ensures journal { result.1 ≡ self.journal }
        ensures run { result.2.state ≡ self.state }
        ensures images { result.3.items ≡ self.images }
        ensures sound { IsBoard I.seen self }
    {
        let Board {
            start,
            run,
            journal,
            images,
            starved: _,
        } = self;
        (start, Seq::from_vec(journal), run, images.into_vec())
    }
}
