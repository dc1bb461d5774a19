use crate::case::{CaseError, cut, number_of, word};
use crate::entry::entry_of;
use crate::look_run::look;
use crate::setup::Setup;
use std::alloc::Global;
use std::fmt::Write;
use vm_law::{Entry, Signed};
use vm_table::Run;

/// A case, as far as it has come.
#[derive(Drop)]
pub struct Bench {
    setup: Setup,
    run: Option<Run>,
    /// How many entries and looks were as they must be.
    compared: u64,
    /// What wasn't, first.
    differs: Option<String>,
}

/// Whether the first character is a decimal digit.
fn begins_with_digit(text: &str) -> bool {
    match text.as_bytes().first() {
        Some(first) => first.is_ascii_digit(),
        None => false,
    }
}

/// An entry that must be lawful. It is told before it is made.
fn go(alloc: Global, run: &mut Run, signed: &Signed) -> Result<bool, CaseError> {
    run.reserve(alloc, 1)?;
    if !run.may(signed.by, &signed.entry) {
        return Ok(false);
    }
    run.apply(signed.by, &signed.entry);
    Ok(true)
}

/// An entry that must be lawful, told and made at once.
fn advance(alloc: Global, run: &mut Run, signed: &Signed) -> Result<bool, CaseError> {
    run.reserve(alloc, 1)?;
    Ok(run.advance(signed.by, &signed.entry))
}

/// A Slice that must be lawful, whose context after it is computed before it is made.
fn bring(run: &mut Run, signed: &Signed) -> Result<bool, CaseError> {
    let Entry::Slice { cpu, n } = signed.entry else {
        return Err(CaseError::Form);
    };
    match run.slice_ahead(signed.by, cpu, n) {
        None => Ok(false),
        Some(ctx) => {
            run.put_slice(signed.by, cpu, n, ctx);
            Ok(true)
        }
    }
}

/// An entry that must not be lawful. The call that tells and makes it leaves it out.
fn refuse(alloc: Global, run: &mut Run, signed: &Signed) -> Result<bool, CaseError> {
    if run.may(signed.by, &signed.entry) {
        return Ok(false);
    }
    Ok(!advance(alloc, run, signed)?)
}

/// The greatest Slice of a vCPU, which must be lawful.
fn bring_greatest(run: &mut Run, signed: &Signed) -> Result<bool, CaseError> {
    let Entry::Slice { cpu, n } = signed.entry else {
        return Err(CaseError::Form);
    };
    if cpu >= run.cpu_count() {
        return Ok(false);
    }
    let mut ctx = run.cpu(cpu).ctx;
    let ran = run.run_ahead(&mut ctx, run.left(cpu));
    if ran != n || !run.may(signed.by, &signed.entry) {
        return Ok(false);
    }
    run.put_slice(signed.by, cpu, n, ctx);
    Ok(true)
}

/// Makes or refuses an entry, and says whether it was as it must be.
fn make(alloc: Global, run: &mut Run, how: &str, signed: &Signed) -> Result<bool, CaseError> {
    match how {
        "not" => refuse(alloc, run, signed),
        "at_once" => advance(alloc, run, signed),
        "brought" => bring(run, signed),
        "greatest" => bring_greatest(run, signed),
        _ => go(alloc, run, signed),
    }
}

/// What is told of a case each part of which was as it must be.
fn count_told(alloc: Global, compared: u64) -> Result<String, CaseError> {
    Ok(format!(in alloc; "ok {compared}")?)
}

/// What is told of a part that isn't as it must be.
fn difference(alloc: Global, part: &str, gave: &str) -> Result<String, CaseError> {
    Ok(format!(in alloc; "differs: {part} gave {gave}")?)
}

/// What is told of a line that can't be carried out.
fn fault(alloc: Global, error: &CaseError, line: &str) -> Result<String, CaseError> {
    Ok(format!(in alloc; "{error}: {line}")?)
}

impl Bench {
    pub fn new(alloc: Global) -> Bench {
        Bench {
            setup: Setup::new(alloc),
            run: None,
            compared: 0,
            differs: None,
        }
    }

    /// The run that has begun.
    fn run(&mut self) -> Result<&mut Run, CaseError> {
        self.run.as_mut().ok_or(CaseError::Form)
    }

    /// Makes or refuses an entry, and says whether it was as it must be.
    fn entry(&mut self, alloc: Global, how: &str, text: &str) -> Result<bool, CaseError> {
        let signed = entry_of(text)?;
        make(alloc, self.run()?, how, &signed)
    }

    /// Makes an entry so many times, and says whether it was lawful each time.
    fn repeat(&mut self, alloc: Global, text: &str) -> Result<bool, CaseError> {
        let (count, text) = cut(text);
        for _ in 0..word(number_of(count)?)? {
            if !self.entry(alloc, "", text)? {
                return Ok(false);
            }
        }
        Ok(true)
    }

    /// Looks something up, and says whether it is what it must be; if not, what it is.
    fn compare(
        &mut self,
        alloc: Global,
        what: &str,
        want: &str,
        gave: &mut String,
    ) -> Result<bool, CaseError> {
        look(alloc, self.run()?, what, gave)?;
        Ok(gave.as_str() == want)
    }

    /// A copy of the run, or a run from its machine.
    fn another(&self, alloc: Global, how: &str) -> Result<Run, CaseError> {
        let Some(run) = &self.run else {
            return Err(CaseError::Form);
        };
        match how {
            "copy" => Ok(run.copy(alloc)?),
            "restore" => self.setup.restore(alloc, run),
            _ => Err(CaseError::Form),
        }
    }

    /// Begins anew: from an image, from the machine of this run, or from a copy of it.
    fn begin(&mut self, alloc: Global, how: &str) -> Result<bool, CaseError> {
        let run = if how == "begin" {
            self.setup.begin(alloc)
        } else {
            self.another(alloc, how)
        };
        self.run = Some(run?);
        Ok(true)
    }

    /// Carries out a part of a line, and says whether it was as it must be.
    fn carry_out(
        &mut self,
        alloc: Global,
        part: &str,
        gave: &mut String,
    ) -> Result<bool, CaseError> {
        if let Some((what, want)) = part.split_once(" = ") {
            return self.compare(alloc, what, want, gave);
        }
        if begins_with_digit(part) {
            return self.entry(alloc, "", part);
        }
        let (how, text) = cut(part);
        if text.is_empty() {
            return self.begin(alloc, how);
        }
        if how == "repeat" {
            return self.repeat(alloc, text);
        }
        self.entry(alloc, how, text)
    }

    /// Carries out a part of a line, says whether it was as it must be, and keeps what it gave where it wasn't.
    fn take(&mut self, alloc: Global, part: &str) -> Result<bool, CaseError> {
        let mut gave = String::new(alloc);
        if self.carry_out(alloc, part, &mut gave)? {
            self.compared = self.compared.saturating_add(1);
            return Ok(true);
        }
        self.differs = Some(difference(alloc, part, gave.as_str())?);
        Ok(false)
    }

    /// Carries out a line of a case. What comes behind the first part that isn't as it must be is left out.
    fn try_line(&mut self, alloc: Global, line: &str) -> Result<(), CaseError> {
        if self.differs.is_some() || self.setup.take(alloc, line)? {
            return Ok(());
        }
        for part in line.split(", ") {
            if !self.take(alloc, part)? {
                return Ok(());
            }
        }
        Ok(())
    }

    /// Carries out a line of a case.
    pub fn line(&mut self, alloc: Global, line: &str) -> Result<(), CaseError> {
        match self.try_line(alloc, line) {
            Ok(()) => Ok(()),
            Err(CaseError::Memory) => Err(CaseError::Memory),
            Err(error) => {
                self.differs = Some(fault(alloc, &error, line)?);
                Ok(())
            }
        }
    }

    /// What became of the case, which ends. Its start stands until another one is begun.
    pub fn end(&mut self, alloc: Global) -> Result<String, CaseError> {
        let told = match self.differs.take() {
            Some(text) => text,
            None => count_told(alloc, self.compared)?,
        };
        self.run = None;
        self.compared = 0;
        Ok(told)
    }
}
