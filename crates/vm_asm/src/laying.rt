//! The layout with one line more.
ghost use Rattle.std.specs.Prelude.{◌≡◌};

use crate::fault::{AsmError, AsmKind, Refusal};
use crate::layout::{Layout, Placed};
use crate::line::{Line, line_of};
use crate::statement::Statement;
use asm_words::Value;
use std::alloc::{AllocError, Global};

impl Layout {
    ghost use Rattle.std.specs.Prelude.{◌≡◌, ◌<◌, ◌≤◌, ◌+◌, ◌^◌, length, OnOk, OnErr};
    ghost use Rattle.text_reader.specs.Line.{Fault};
    ghost use Rattle.text_reader.specs.Word.{texts};
    ghost use Rattle.asm_insn.specs.Spelling.{Speller, IsSpeller};
    ghost use Rattle.vm_asm.specs.Layout.{laid_of, with_label, with_mark, added, line_step, refused_at, IsSound, Lays, Steps, lay};

    /// Where labels stand with one more, if there is one.
    fn put_label(&mut self, label: Option<Value>)
        ensures { laid_of self.new ≡ with_label (laid_of self.old) label }
    {
        let Some(Value::Label(label)) = label else {
            return;
        };
        let label = label as usize;
        if label < self.places.len() {
            self.places[label] = Some(self.place);
        }
    }

    /// The entry and the end of the code part with a statement more.
    fn put_mark(&mut self, number: u32, statement: &Statement)
        ensures { laid_of self.new ≡ with_mark number (laid_of self.old) statement.now }
    {
        match statement {
            Statement::Entry(Value::Label(label)) => self.entry = Some((*label, number)),
            Statement::Data => self.code_end = Some(self.place),
            _ => {}
        }
    }

    /// The layout with a line more, which has no fault, and behind which the next byte stands at `next`.
    #[tactic(auto, unfolding(crate::specs::Layout::added))]
    fn add(&mut self, number: u32, line: &Line, next: u32) -> Result<(), AllocError>
        ensures ok { OnOk result (laid_of self.new ≡ added number (laid_of self.old) line.now next) }
        ensures err { OnErr result (laid_of self.new ≡ laid_of self.old) }
    {
        self.statements.push(Placed {
            line: number,
            statement: line.statement,
            end: next,
        })?;
        self.put_label(line.label);
        self.put_mark(number, &line.statement);
        self.place = next;
        Ok(())
    }

    /// Adds line `number` of a text whose labels have these names. Where it is faulty the layout stays as it was.
    #[tactic(auto, unfolding(crate::specs::Layout::lay))]
    fn read_full(
        &mut self,
        alloc: Global,
        names: &[&str],
        number: u32,
        line: &[u8],
    ) -> Result<(), Refusal>
        requires few { length names.now < 2 ^ 32 }
        requires sound { IsSound (laid_of self.old) }
        ensures told { (spell : Speller) → IsSpeller spell → Lays (laid_of self.old) (laid_of self.new) result (lay spell (texts names.now) number (laid_of self.old) line.now) }
        ensures sound { OnOk result (IsSound (laid_of self.new)) }
    {
        let line = line_of(alloc, names, line)?;
        if let Some(kind) = self.kind_at(&line) {
            return Err(Refusal::Kind(kind));
        }
        let Some(next) = self.next_place(&line.statement) else {
            return Err(Refusal::Kind(AsmKind::Large));
        };
        self.add(number, &line, next)?;
        Ok(())
    }

    /// The error of a refused line, where a fault of the whole that is known by then comes first.
    fn error_at(&self, line: u32, refusal: Refusal) -> AsmError
        ensures { result ≡ refused_at line (laid_of self.now) refusal }
    {
        match refusal {
            Refusal::Kind(kind) => {
                let fault = AsmError::Fault { line, kind };
                self.known_fault().unwrap_or(fault)
            }
            Refusal::Memory => AsmError::Memory,
        }
    }

    /// Adds line `number`, counted from 1, of a text whose labels have these names.
    #[tactic(auto, unfolding(crate::specs::Layout::line_step))]
    pub fn read_line(
        &mut self,
        alloc: Global,
        names: &[&str],
        number: u64,
        line: &[u8],
    ) -> Result<(), AsmError>
        requires few { length names.now < 2 ^ 32 }
        requires brief { number + length line.now ≤ 2 ^ 32 }
        requires sound { IsSound (laid_of self.old) }
        ensures told { (spell : Speller) → IsSpeller spell → Steps (laid_of self.new) result (line_step spell (texts names.now) number (laid_of self.old) line.now) }
        ensures sound { OnOk result (IsSound (laid_of self.new)) }
    {
        if line.is_empty() {
            return Ok(());
        }
        let number = number as u32;
        match self.read_full(alloc, names, number, line) {
            Ok(()) => Ok(()),
            Err(refusal) => Err(self.error_at(number, refusal)),
        }
    }
}
