use crate::case::{CaseError, bytes_of, put_text};
use cfg_text::{CfgError, Config};
use cfg_vm::PlanError;
use std::alloc::Global;
use vm_law::{Plan, Text};

/// The configuration that a text is; its fault is told.
fn read(alloc: Global, text: &str, out: &mut String) -> Result<Option<Config>, CaseError> {
    let bytes = bytes_of(alloc, text)?;
    if bytes.len() >= 0x1_0000_0000 {
        return Err(CaseError::Form);
    }
    match cfg_text::read(alloc, &bytes) {
        Ok(config) => Ok(Some(config)),
        Err(CfgError::Fault { line, kind }) => {
            write!(out, "at {line}: {kind}")?;
            Ok(None)
        }
        Err(CfgError::Memory) => Err(CaseError::Memory),
    }
}

/// Adds a variable, and what is odd of it where a look-up gives another value.
fn put_variable(
    out: &mut String,
    config: &Config,
    name: &str,
    value: &str,
) -> Result<(), CaseError> {
    put_text(out, name)?;
    out.push_str("=")?;
    put_text(out, value)?;
    if config.get(name) != Some(value) {
        out.push_str(" (another)")?;
    }
    Ok(())
}

/// The variables of a configuration.
pub fn cfg_outcome(alloc: Global, text: &str) -> Result<String, CaseError> {
    let mut out = String::new(alloc);
    let Some(config) = read(alloc, text, &mut out)? else {
        return Ok(out);
    };
    let count = config.len();
    write!(out, "{count}:")?;
    for k in 0..config.len() {
        let (name, value) = config.nth(k);
        out.push(' ')?;
        put_variable(&mut out, &config, name, value)?;
    }
    Ok(out)
}

/// The value of one variable.
pub fn get_outcome(alloc: Global, rest: &str) -> Result<String, CaseError> {
    let mut out = String::new(alloc);
    let Some((name, text)) = rest.split_once(' ') else {
        return Err(CaseError::Form);
    };
    let Some(config) = read(alloc, text, &mut out)? else {
        return Ok(out);
    };
    match config.get(name) {
        Some(value) => {
            out.push_str("=")?;
            put_text(&mut out, value)?;
        }
        None => out.push_str("none")?,
    }
    Ok(out)
}

fn put_file(out: &mut String, what: &str, file: &Option<Text>) -> Result<(), CaseError> {
    if let Some(name) = file {
        out.push_str(what)?;
        put_text(out, name.as_str())?;
    }
    Ok(())
}

fn put_plan(out: &mut String, plan: &Plan) -> Result<(), CaseError> {
    let cpus = plan.cpus;
    let memory = plan.memory;
    write!(out, "cpus {cpus} memory {memory} name [")?;
    put_text(out, plan.name.as_str())?;
    out.push_str("]")?;
    put_file(out, " image ", &plan.image)?;
    put_file(out, " script ", &plan.script)?;
    for disk in plan.disks.as_slice() {
        out.push_str(" disk ")?;
        put_text(out, disk.path.as_str())?;
        out.push_str(if disk.ro { " ro " } else { " rw " })?;
        let workers = disk.workers;
        write!(out, "{workers}")?;
    }
    for name in plan.notbuilt.as_slice() {
        out.push_str(" not built ")?;
        put_text(out, name.as_str())?;
    }
    Ok(())
}

/// What a configuration plans.
pub fn plan_outcome(alloc: Global, text: &str, restore: bool) -> Result<String, CaseError> {
    let mut out = String::new(alloc);
    let Some(config) = read(alloc, text, &mut out)? else {
        return Ok(out);
    };
    match cfg_vm::plan(alloc, &config, restore) {
        Ok(plan) => put_plan(&mut out, &plan)?,
        Err(PlanError::Fault { variable, kind }) => {
            put_text(&mut out, variable.as_str())?;
            write!(out, ": {kind}")?;
        }
        Err(PlanError::Memory) => return Err(CaseError::Memory),
    }
    Ok(out)
}
