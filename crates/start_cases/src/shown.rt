use crate::case::CaseError;
use std::alloc::Global;
use vm_host::MemSink;
use vm_law::Plan;
use vm_state::{Origin, Start};
use vm_status::{Refusal, write_line};

/// The line of a refusal, without its end, and the status.
pub fn refusal_text(alloc: Global, refusal: &Refusal) -> Result<String, CaseError> {
    let mut sink = MemSink::new(alloc);
    if write_line(refusal, &mut sink).is_err() {
        return Err(CaseError::Memory);
    }
    let Ok(line) = str::from_utf8(sink.taken()) else {
        return Err(CaseError::Form);
    };
    let status = refusal.status();
    let line = line.trim_end();
    Ok(format!(in alloc; "{status} {line}")?)
}

/// A plan in words.
pub fn shown_plan(alloc: Global, plan: &Plan) -> Result<String, CaseError> {
    let mut out = String::new(alloc);
    let cpus = plan.cpus;
    let memory = plan.memory;
    let name = plan.name.as_str();
    write!(out, "cpus {cpus} memory {memory} name {name}")?;
    for disk in plan.disks.as_slice() {
        let path = disk.path.as_str();
        let workers = disk.workers;
        let ro = disk.ro;
        write!(out, " disk {path} {ro} {workers}")?;
    }
    for variable in plan.notbuilt.as_slice() {
        let variable = variable.as_str();
        write!(out, " notbuilt {variable}")?;
    }
    Ok(out)
}

/// A start in words.
pub fn shown_start(alloc: Global, start: &Start) -> Result<String, CaseError> {
    let mut out = shown_plan(alloc, &start.plan)?;
    if let Origin::Flat(image) = &start.origin {
        let entry = image.entry;
        let code = image.code;
        let payload = image.payload.len();
        write!(out, " image {entry} {code} {payload}")?;
    }
    for disk in start.disks.as_slice() {
        let length = disk.len();
        write!(out, " holds {length}")?;
    }
    let orders = start.script.len();
    let limit = start.limit;
    write!(out, " orders {orders} limit {limit}")?;
    Ok(out)
}
