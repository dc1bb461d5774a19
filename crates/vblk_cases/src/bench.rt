ghost use Rattle.std.specs.Bool.{OnTrue};
ghost use Rattle.vm_vblk.specs.Window.{LiesOver};

use crate::case::{CaseError, bytes_of, number_of, numbers_of};
use crate::print::{print_chain, print_pulled};
use crate::ram::Ram;
use std::alloc::{AllocError, Global};
use std::fmt::Write;
use vm_law::Bytes;
use vm_vblk::{Window, WindowEffect};
use vq_ring::{Ring, next_chain, ring_ok};

/// A window and the memory that it works on.
#[derive(Drop)]
pub struct Bench {
    ram: Ram,
    window: Window,
}

/// The low 32 bits of a number.
fn low(number: u64) -> u32 {
    (number % 0x1_0000_0000) as u32
}

/// The low 16 bits of a number.
fn word(number: u64) -> u16 {
    (number % 0x1_0000) as u16
}

fn bit(set: bool) -> &'static str {
    if set { "1" } else { "0" }
}

/// The queue of these numbers: its size and its tables.
fn ring_of(numbers: &[u64; 5]) -> Ring {
    Ring {
        size: word(numbers[0]),
        desc: numbers[1],
        avail: numbers[2],
        used: numbers[3],
    }
}

/// Whether the window's queue isn't ready, or its tables lie well in memory.
fn is_fit<B: Bytes>(window: &Window, bytes: &B) -> bool
    ensures { OnTrue result (LiesOver (B.memory bytes.now) window.now) }
{
    !window.is_ready() || ring_ok(&window.ring(), bytes.code(), bytes.size())
}

/// Prints what stands next in a queue.
fn print_next(ram: &Ram, ring: &Ring, last: u16, out: &mut String) -> Result<(), AllocError> {
    if ring_ok(ring, ram.code(), ram.size()) {
        print_chain(&next_chain(ram, ring, last), out)
    } else {
        out.push_str("unfit")
    }
}

impl Bench {
    pub fn new(alloc: Global) -> Result<Bench, CaseError> {
        Ok(Bench {
            ram: Ram::new(alloc)?,
            window: Window::new(8, false),
        })
    }

    /// The guest writes bytes into memory.
    fn put(&mut self, alloc: Global, fields: &str) -> Result<(), CaseError> {
        let (at, digits) = fields.split_once(':').ok_or(CaseError::Form)?;
        let at = number_of(at)?;
        let bytes = bytes_of(alloc, digits)?;
        let len = bytes.len() as u64;
        let size = self.ram.size();
        if len > 512 || len > size || at > size - len {
            return Err(CaseError::Form);
        }
        self.ram.write(at, bytes.as_slice());
        Ok(())
    }

    /// Prints bytes of memory.
    fn get(&self, at: u64, len: u64, out: &mut String) -> Result<(), CaseError> {
        for byte in self.ram.piece(at, len).ok_or(CaseError::Form)? {
            write!(out, "{byte:02x}")?;
        }
        Ok(())
    }

    /// Writes a register.
    fn write(&mut self, offset: u32, value: u32) -> &'static str {
        if !is_fit(&self.window, &self.ram) {
            return "unfit";
        }
        match self.window.write(&self.ram, offset, value) {
            WindowEffect::Nothing => "-",
            WindowEffect::Reset => "reset",
        }
    }

    /// Takes the chain that stands next.
    fn pull(&mut self, out: &mut String) -> Result<(), AllocError> {
        if !is_fit(&self.window, &self.ram) {
            return out.push_str("unfit");
        }
        if !self.window.waits(&self.ram) {
            return out.push_str("none");
        }
        print_pulled(&self.window.pull(&mut self.ram), out)
    }

    /// Completes the chain of a request: its head, the address of its status byte, the status, and how much was written.
    fn finish(&mut self, numbers: &[u64; 5]) -> &'static str {
        let at = numbers[1];
        if !is_fit(&self.window, &self.ram)
            || !self.window.is_ready()
            || at < self.ram.code()
            || at >= self.ram.size()
        {
            return "cannot";
        }
        let status = (numbers[2] % 256) as u8;
        self.window.finish(&mut self.ram, word(numbers[0]), at, status, low(numbers[3]));
        "-"
    }

    /// Whether a chain waits.
    fn waits(&self) -> bool {
        is_fit(&self.window, &self.ram) && self.window.waits(&self.ram)
    }

    /// Carries out a command without numbers, and prints what it gives.
    fn look(&mut self, command: &str, out: &mut String) -> Result<(), CaseError> {
        match command {
            "pull" => self.pull(out)?,
            "line" => out.push_str(bit(self.window.line()))?,
            "waits" => out.push_str(bit(self.waits()))?,
            "notified" => out.push_str(bit(self.window.is_notified()))?,
            "last" => write!(out, "{:x}", self.window.saved().last_avail)?,
            "used" => write!(out, "{:x}", self.window.saved().used_index)?,
            _ => return Err(CaseError::Form),
        }
        Ok(())
    }

    /// Carries out a command, and prints what it gives.
    pub fn run(&mut self, alloc: Global, command: &str, out: &mut String) -> Result<(), CaseError> {
        let Some((name, fields)) = command.split_once(':') else {
            return self.look(command, out);
        };
        if name == "put" {
            self.put(alloc, fields)?;
            return Ok(out.push_str("-")?);
        }
        let numbers = numbers_of(fields)?;
        match name {
            "disk" => self.window = Window::new(numbers[0], false),
            "readonly" => self.window = Window::new(numbers[0], true),
            "get" => return self.get(numbers[0], numbers[1], out),
            "w" => return Ok(out.push_str(self.write(low(numbers[0]), low(numbers[1])))?),
            "r" => return Ok(write!(out, "{:x}", self.window.read(low(numbers[0])))?),
            "finish" => return Ok(out.push_str(self.finish(&numbers))?),
            "ring" => {
                let fits = ring_ok(&ring_of(&numbers), self.ram.code(), self.ram.size());
                return Ok(out.push_str(if fits { "fits" } else { "unfit" })?);
            }
            "chain" => {
                return Ok(print_next(&self.ram, &ring_of(&numbers), word(numbers[4]), out)?);
            }
            _ => return Err(CaseError::Form),
        }
        Ok(out.push_str("-")?)
    }
}
