//! The layout: where each line's bytes and labels stand.
ghost use Rattle.std.specs.Prelude.{◌≡◌, ◌<◌, ◌^◌};
ghost use Rattle.asm_insn.specs.Spelling.{Speller, IsSpeller};
ghost use Rattle.vm_asm.specs.Layout.{bytes_of, gap, size_at, is_passed};

use crate::fault::{AsmError, AsmKind};
use crate::line::Line;
use crate::statement::Statement;
use asm_insn::is_defined_value;
use asm_words::Value;
use std::alloc::{AllocError, Global};
use vm_law::Width;

/// How many bytes a payload has at most: 16 MiB.
const LIMIT: u32 = 16_777_216;

/// A statement where it stands.
#[derive(Clone, Copy)]
pub struct Placed {
    /// Its line, counted from 1.
    pub line: u32,
    pub statement: Statement,
    /// Where the next byte stands behind it.
    pub end: u32,
}

/// What the lines so far say.
#[derive(Drop)]
pub struct Layout {
    /// Where the next byte stands.
    pub place: u32,
    /// Where each label stands that was defined so far, in the order of all names.
    pub places: Vec<Option<u32>>,
    /// The label of the entry, and the line that names it.
    pub entry: Option<(u32, u32)>,
    /// Where the code part ends, once that is said.
    pub code_end: Option<u32>,
    pub statements: Vec<Placed>,
}

/// How many bytes a number of a width has.
pub fn bytes_of(width: Width) -> u32
    ensures { result ≡ bytes_of width }
{
    match width {
        Width::B => 1,
        Width::W => 2,
        Width::D => 4,
        Width::Q => 8,
    }
}

/// How many bytes a statement takes at a place. An `.org` to a place that is passed takes none.
#[tactic(auto, unfolding(crate::specs::Layout::size_at))]
fn size_at(place: u32, statement: &Statement) -> u128
    ensures value { (spell : Speller) → IsSpeller spell → result ≡ size_at spell place statement.now }
    ensures small { result < 2 ^ 127 }
{
    match statement {
        Statement::Org(n) => gap(place, *n),
        Statement::Number(width, _) => u128::from(bytes_of(*width)),
        Statement::Instruction(instruction) => u128::from(instruction.size()),
        _ => 0,
    }
}

/// How far a place is behind another, and 0 where it is before it.
fn gap(place: u32, n: i128) -> u128
    ensures value { result ≡ gap place n }
    ensures small { result < 2 ^ 127 }
{
    if n < i128::from(place) {
        0
    } else {
        (n - i128::from(place)) as u128
    }
}

/// Whether it is an `.org` to a place that is passed.
fn is_passed(place: u32, statement: &Statement) -> bool
    ensures { result ≡ is_passed place statement.now }
{
    match statement {
        Statement::Org(n) => *n < i128::from(place),
        _ => false,
    }
}

impl Layout {
    ghost use Rattle.std.specs.Prelude.{◌≡◌, ◌≤◌, IfOk, IfSome, option_map};
    ghost use Rattle.text_reader.specs.Word.{texts};
    ghost use Rattle.asm_insn.specs.Spelling.{Speller, IsSpeller};
    ghost use Rattle.vm_asm.specs.Layout.{laid_of, nothing_laid, stood, is_second, kind_at, next_place, place_of, entry_fault, known_fault, ended, entry_at, error_of, IsSound};

    /// The layout before the first line of a text with these names.
    pub fn new(alloc: Global, names: &[&str]) -> Result<Layout, AllocError>
        ensures nothing { IfOk result (λ l. laid_of l ≡ nothing_laid (texts names.now)) }
        ensures sound { IfOk result (λ l. IsSound (laid_of l)) }
    {
        let places = vec![in alloc; None; names.len()]?;
        Ok(Layout {
            place: 0,
            places,
            entry: None,
            code_end: None,
            statements: Vec::new(alloc),
        })
    }

    /// Whether a label stood before.
    fn stood(&self, label: Option<Value>) -> bool
        ensures { result ≡ stood (laid_of self.now).places label }
    {
        match label {
            Some(Value::Label(label)) => {
                matches!(self.places.get(label as usize), Some(Some(_)))
            }
            _ => false,
        }
    }

    /// Whether it is an `.entry` or a `.data` that stood before.
    fn is_second(&self, statement: &Statement) -> bool
        ensures { result ≡ is_second (laid_of self.now) statement.now }
    {
        match statement {
            Statement::Entry(_) => self.entry.is_some(),
            Statement::Data => self.code_end.is_some(),
            _ => false,
        }
    }

    /// The first kind of fault that a line has behind these, but for `Large`.
    #[tactic(auto, unfolding(crate::specs::Layout::kind_at))]
    pub fn kind_at(&self, line: &Line) -> Option<AsmKind>
        ensures { (spell : Speller) → IsSpeller spell → result ≡ kind_at spell (laid_of self.now) line.now }
    {
        let statement = &line.statement;
        if !is_defined_value(line.label.unwrap_or(Value::Number(0))) || !statement.is_defined() {
            Some(AsmKind::Label)
        } else if !statement.fits() || is_passed(self.place, statement) {
            Some(AsmKind::Range)
        } else if self.stood(line.label) || self.is_second(statement) {
            Some(AsmKind::Twice)
        } else {
            None
        }
    }

    /// Where the next byte stands behind a statement; `None` where the payload would get too long.
    pub fn next_place(&self, statement: &Statement) -> Option<u32>
        ensures value { (spell : Speller) → IsSpeller spell → result ≡ next_place spell (laid_of self.now) statement.now }
        ensures small { IfSome result (λ next. next ≤ 16777216) }
        ensures grows { IfSome result (λ next. self.now.place ≤ next) }
    {
        let next = u128::from(self.place) + size_at(self.place, statement);
        if next > u128::from(LIMIT) {
            None
        } else {
            Some(next as u32)
        }
    }

    /// Where a label stands, if it was defined so far.
    fn place_of(&self, label: u32) -> Option<u32>
        ensures { result ≡ place_of (laid_of self.now).places label }
    {
        match self.places.get(label as usize) {
            Some(place) => *place,
            None => None,
        }
    }

    /// The fault of an entry that isn't in the code part, once its label stands.
    fn entry_fault(&self, code: u32) -> Option<AsmError>
        ensures { result ≡ option_map error_of (entry_fault (laid_of self.now).places code (laid_of self.now).entry) }
    {
        let (label, line) = self.entry?;
        let place = self.place_of(label)?;
        if place < code {
            return None;
        }
        let kind = AsmKind::Range;
        Some(AsmError::Fault { line, kind })
    }

    /// The first fault of the whole that the lines so far decide: no code, or an entry that isn't in it.
    #[tactic(auto, unfolding(crate::specs::Layout::known_fault))]
    pub fn known_fault(&self) -> Option<AsmError>
        ensures { result ≡ option_map error_of (known_fault (laid_of self.now)) }
    {
        let code = self.code_end?;
        if code == 0 {
            let (line, kind) = (1, AsmKind::Range);
            return Some(AsmError::Fault { line, kind });
        }
        self.entry_fault(code)
    }

    /// The layout with the end of the code part, which is that of the text where nothing else was said.
    pub fn end(&mut self)
        requires { IsSound (laid_of self.old) }
        ensures ended { laid_of self.new ≡ ended (laid_of self.old) }
        ensures sound { IsSound (laid_of self.new) }
    {
        if self.code_end.is_none() {
            self.code_end = Some(self.place);
        }
    }

    /// Where the entry stands.
    pub fn entry_at(&self) -> u32
        ensures { result ≡ entry_at (laid_of self.now) }
    {
        match self.entry {
            Some((label, _)) => self.place_of(label).unwrap_or(0),
            None => 0,
        }
    }
}
