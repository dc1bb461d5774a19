//! What a case starts from, as its lines say it.
ghost use Rattle.std.specs.Prelude.{◌<◌, ◌^◌, length, IfOk};

use crate::case::{CaseError, byte, cut, numbers_of};
use crate::sound::{begin_flat, begin_saved};
use ctl_script::read;
use std::alloc::Global;
use vm_asm::assemble;
use vm_law::{DiskPlan, FlatImage, Plan, Script, Seq, Text};
use vm_table::Run;

/// The bytes of a sector.
const SECTOR: usize = 512;

/// A disk has at most so many sectors here.
const MOST_SECTORS: u64 = 8192;

/// Assembly and script are no longer than this.
const MOST_TEXT: usize = 0x10_0000;

/// A disk.
#[derive(Drop)]
struct Disk {
    ro: bool,
    workers: u8,
    bytes: Vec<u8>,
}

/// What a case starts from.
#[derive(Drop)]
pub struct Setup {
    cpus: u8,
    memory: u64,
    limit: u64,
    disks: Vec<Disk>,
    assembly: String,
    script: String,
}

/// Adds statements, each a line.
fn add_lines(text: &mut String, statements: &str) -> Result<(), CaseError> {
    for statement in statements.split("; ") {
        text.push_str(statement)?;
        text.push('\n')?;
    }
    Ok(())
}

/// A text that isn't too long.
fn short(text: &String) -> Result<&[u8], CaseError>
    ensures { IfOk result (λ bytes. length bytes.now < 2 ^ 32) }
{
    if text.len() > MOST_TEXT {
        return Err(CaseError::Form);
    }
    Ok(text.as_bytes())
}

/// A disk of zeros: its sectors, its workers, and 1 where it is read-only.
fn disk_of(alloc: Global, fields: &str) -> Result<Disk, CaseError> {
    let numbers = numbers_of(fields)?;
    if numbers[0] > MOST_SECTORS {
        return Err(CaseError::Form);
    }
    let workers = byte(numbers[1])?;
    let bytes = vec![in alloc; 0; numbers[0] as usize * SECTOR]?;
    Ok(Disk {
        ro: numbers[2] != 0,
        workers,
        bytes,
    })
}

/// Fills a sector, where there is one of this number.
fn fill_sector(bytes: &mut Vec<u8>, sector: u64, value: u8) -> Result<(), CaseError> {
    if sector > MOST_SECTORS {
        return Err(CaseError::Form);
    }
    let at = sector as usize * SECTOR;
    match bytes.as_mut_slice().get_mut(at..at + SECTOR) {
        Some(sector) => sector.fill(value),
        None => return Err(CaseError::Form),
    }
    Ok(())
}

impl Setup {
    /// One vCPU, and no disk.
    pub fn new(alloc: Global) -> Setup {
        Setup {
            cpus: 1,
            memory: 0,
            limit: 0,
            disks: Vec::new(alloc),
            assembly: String::new(alloc),
            script: String::new(alloc),
        }
    }

    /// Another start: so many vCPUs, so many bytes of memory, so many instructions.
    fn start(&mut self, alloc: Global, fields: &str) -> Result<(), CaseError> {
        let numbers = numbers_of(fields)?;
        let cpus = byte(numbers[0])?;
        *self = Setup {
            cpus,
            memory: numbers[1],
            limit: numbers[2],
            ..Setup::new(alloc)
        };
        Ok(())
    }

    /// One disk more: its sectors, its workers, and 1 where it is read-only.
    fn disk(&mut self, alloc: Global, fields: &str) -> Result<(), CaseError> {
        let disk = disk_of(alloc, fields)?;
        self.disks.push(disk)?;
        Ok(())
    }

    /// The byte that stands all over a sector of a disk.
    fn fill(&mut self, fields: &str) -> Result<(), CaseError> {
        let numbers = numbers_of(fields)?;
        let place = usize::try_from(numbers[0]).map_err(|_| CaseError::Form)?;
        match self.disks.as_mut_slice().get_mut(place) {
            Some(disk) => fill_sector(&mut disk.bytes, numbers[1], byte(numbers[2])?),
            None => Err(CaseError::Form),
        }
    }

    /// Another script.
    fn orders(&mut self, alloc: Global, fields: &str) -> Result<(), CaseError> {
        self.script = String::new(alloc);
        add_lines(&mut self.script, fields)
    }

    /// Takes a line that says something of the start, and says whether it does.
    pub fn take(&mut self, alloc: Global, line: &str) -> Result<bool, CaseError> {
        let (name, fields) = cut(line);
        let taken = match name {
            "start" => self.start(alloc, fields),
            "disk" => self.disk(alloc, fields),
            "fill" => self.fill(fields),
            "asm" => add_lines(&mut self.assembly, fields),
            "order" => add_lines(&mut self.script, fields),
            "orders" => self.orders(alloc, fields),
            _ => return Ok(false),
        };
        taken?;
        Ok(true)
    }

    /// The disks as they are planned.
    fn disk_plans(&self, alloc: Global) -> Result<Seq<DiskPlan>, CaseError> {
        let mut plans = Vec::new(alloc);
        for disk in &self.disks {
            plans.push(DiskPlan {
                path: Text::from_text(alloc, "disk")?,
                ro: disk.ro,
                workers: disk.workers,
            })?;
        }
        Ok(Seq::from_vec(plans))
    }

    fn plan(&self, alloc: Global) -> Result<Plan, CaseError> {
        let name = Text::from_text(alloc, "case")?;
        let disks = self.disk_plans(alloc)?;
        Ok(Plan {
            cpus: self.cpus,
            memory: self.memory,
            name,
            image: None,
            script: None,
            disks,
            notbuilt: Seq::new(alloc),
        })
    }

    fn contents(&self, alloc: Global) -> Result<Seq<Seq<u8>>, CaseError> {
        let mut disks = Vec::new(alloc);
        for disk in &self.disks {
            disks.push(Seq::from_slice(alloc, disk.bytes.as_slice())?)?;
        }
        Ok(Seq::from_vec(disks))
    }

    fn script(&self, alloc: Global, plan: &Plan) -> Result<Script, CaseError> {
        Ok(read(alloc, short(&self.script)?, plan)?)
    }

    fn planned(&self, alloc: Global) -> Result<(Plan, Script), CaseError> {
        let plan = self.plan(alloc)?;
        let script = self.script(alloc, &plan)?;
        Ok((plan, script))
    }

    fn image(&self, alloc: Global) -> Result<FlatImage, CaseError> {
        Ok(assemble(alloc, short(&self.assembly)?)?)
    }

    fn contents_and_image(&self, alloc: Global) -> Result<(Seq<Seq<u8>>, FlatImage), CaseError> {
        let disks = self.contents(alloc)?;
        let image = self.image(alloc)?;
        Ok((disks, image))
    }

    /// The run that begins from the assembled image.
    pub fn begin(&self, alloc: Global) -> Result<Run, CaseError> {
        let (plan, script) = self.planned(alloc)?;
        let (disks, image) = self.contents_and_image(alloc)?;
        begin_flat(alloc, plan, image, disks, script, self.limit)
    }

    /// The run that begins from the machine of another run, which is at a cut.
    pub fn restore(&self, alloc: Global, run: &Run) -> Result<Run, CaseError> {
        let (plan, script) = self.planned(alloc)?;
        begin_saved(alloc, plan, script, self.limit, run)
    }
}
