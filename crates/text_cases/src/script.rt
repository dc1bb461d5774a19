use crate::case::{CaseError, bytes_of, number_of, put_lines};
use ctl_script::ScriptError;
use std::alloc::Global;
use vm_law::{DiskPlan, OutOfMemory, Plan, Seq, Text};

/// A plan of so many vCPUs and disks.
fn plan_of(alloc: Global, cpus: u8, count: u32) -> Result<Plan, OutOfMemory> {
    let mut disks = Seq::new(alloc);
    for _ in 0..count {
        disks.push(DiskPlan {
            path: Text::from_text(alloc, "disk")?,
            ro: false,
            workers: 2,
        })?;
    }
    Ok(Plan {
        cpus,
        memory: 268_435_456,
        name: Text::from_text(alloc, "")?,
        image: None,
        script: None,
        disks,
        notbuilt: Seq::new(alloc),
    })
}

/// The print of the script that a text is, or the fault that it has.
fn printed(alloc: Global, bytes: &[u8], plan: &Plan) -> Result<Result<String, String>, CaseError> {
    if bytes.len() >= 0x1_0000_0000 {
        return Err(CaseError::Form);
    }
    match ctl_script::read(alloc, bytes, plan) {
        Ok(script) => Ok(Ok(ctl_script::print(alloc, &script)?)),
        Err(ScriptError::Fault { line, kind }) => {
            let fault = format!(in alloc; "at {line}: {kind}")?;
            Ok(Err(fault))
        }
        Err(ScriptError::Memory) => Err(CaseError::Memory),
    }
}

/// Adds a print, and what its own print is where that is another one.
fn put_print(alloc: Global, out: &mut String, text: &str, plan: &Plan) -> Result<(), CaseError> {
    if text.len() > 1000 {
        let length = text.len();
        write!(out, "<{length}>")?;
    } else {
        put_lines(out, text)?;
    }
    match printed(alloc, text.as_bytes(), plan)? {
        Ok(again) if again.as_str() == text => Ok(()),
        Ok(again) => {
            out.push_str(" differs ")?;
            put_lines(out, again.as_str())
        }
        Err(fault) => {
            out.push_str(" differs ")?;
            put_lines(out, fault.as_str())
        }
    }
}

/// The print of a script.
pub fn script_outcome(alloc: Global, rest: &str) -> Result<String, CaseError> {
    let Some((cpus, rest)) = rest.split_once(' ') else {
        return Err(CaseError::Form);
    };
    let Some((disks, text)) = rest.split_once(' ') else {
        return Err(CaseError::Form);
    };
    let cpus = number_of(cpus.as_bytes())?;
    let disks = number_of(disks.as_bytes())?;
    if cpus > 16 {
        return Err(CaseError::Form);
    }
    let plan = plan_of(alloc, cpus as u8, disks)?;
    let bytes = bytes_of(alloc, text)?;
    let mut out = String::new(alloc);
    match printed(alloc, &bytes, &plan)? {
        Ok(text) => put_print(alloc, &mut out, text.as_str(), &plan)?,
        Err(fault) => out.push_str(fault.as_str())?,
    }
    Ok(out)
}
