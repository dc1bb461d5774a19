//! The report of a run.
ghost use Rattle.std.specs.Prelude.{◌≡◌, ◌+◌, ◌^◌, ◌<◌, ◌++◌, ◌∷◌, [], true, length, IfOk, OnOk, Some, codes};
ghost use Rattle.std.specs.String.{string_bytes};
ghost use Rattle.ctl_script.specs.Print.{has_registers};
ghost use Rattle.vm_state.specs.Machine.{cpu_count, drive_count};
ghost use Rattle.vm_report.specs.Report.{stop_text, ended_text, sample_text, more_samples, samples_text, plain_text, said_text, answer_text, answers_text, cpu_text, cpus_text, disk_text, disks_text, tally_text, unbuilt_text, counts_text, run_text, report_text, state_part, has_orders};

use crate::state::state_json;
use ctl_script::{Hex16, put_order};
use std::alloc::Global;
use vm_law::{Order, OutOfMemory, Plan, Stop, Text};
use vm_state::{Answer, Said, Sample, Why};
use vm_table::{Run, Tally};

fn put_stop(out: &mut String, stop: Stop) -> Result<(), OutOfMemory>
    ensures { OnOk result (string_bytes out.new ≡ string_bytes out.old ++ stop_text stop) }
{
    match stop {
        Stop::Fetch => out.push_str("fetch")?,
        Stop::Memory => out.push_str("memory")?,
        Stop::Device => out.push_str("device")?,
        Stop::Gate(vector) => write!(out, "gate {vector}")?,
        Stop::Frame(vector) => write!(out, "frame {vector}")?,
    }
    Ok(())
}

fn put_stopped(out: &mut String, cpu: u8, stop: Stop, rip: u64) -> Result<(), OutOfMemory>
    ensures { OnOk result (string_bytes out.new ≡ string_bytes out.old ++ ended_text (Some (Why.Stopped cpu stop rip))) }
{
    write!(out, "ended stop cpu {cpu} ")?;
    put_stop(out, stop)?;
    let rip = Hex16(rip);
    write!(out, " rip 0x{rip}\n")?;
    Ok(())
}

/// The line that says why the run ended.
fn put_ended(out: &mut String, ended: Option<Why>) -> Result<(), OutOfMemory>
    ensures { OnOk result (string_bytes out.new ≡ string_bytes out.old ++ ended_text ended) }
{
    match ended {
        None => out.push_str("open\n")?,
        Some(Why::Finished) => out.push_str("ended finished\n")?,
        Some(Why::Stopped { cpu, stop, rip }) => put_stopped(out, cpu, stop, rip)?,
        Some(Why::Budget) => out.push_str("ended budget\n")?,
        Some(Why::Outside) => out.push_str("ended outside\n")?,
    }
    Ok(())
}

/// The lines of the counts of instructions and of console bytes.
fn put_counts(out: &mut String, executed: u64, console: u64) -> Result<(), OutOfMemory>
    ensures { OnOk result (string_bytes out.new ≡ string_bytes out.old ++ counts_text executed console) }
{
    write!(out, "executed {executed}\nconsole {console}\n")?;
    Ok(())
}

fn put_sample(out: &mut String, sample: Sample) -> Result<(), OutOfMemory>
    ensures { OnOk result (string_bytes out.new ≡ string_bytes out.old ++ sample_text sample) }
{
    let cpu = sample.cpu;
    let ran = sample.ran;
    write!(out, "{cpu}:{ran}")?;
    Ok(())
}

/// The samples behind the first, with a space before each.
fn put_more(out: &mut String, samples: &[Sample]) -> Result<(), OutOfMemory>
    ensures { OnOk result (string_bytes out.new ≡ string_bytes out.old ++ more_samples samples.now) }
{
    for sample in samples {
        out.push_str(" ")?;
        put_sample(out, *sample)?;
    }
    Ok(())
}

fn put_samples(out: &mut String, samples: &[Sample]) -> Result<(), OutOfMemory>
    ensures { OnOk result (string_bytes out.new ≡ string_bytes out.old ++ samples_text samples.now) }
{
    match samples {
        [] => Ok(()),
        [first, rest @ ..] => {
            put_sample(out, *first)?;
            put_more(out, rest)
        }
    }
}

/// What is said where there is nothing else to say.
fn put_plain(out: &mut String, order: &Order, samples: &[Sample]) -> Result<(), OutOfMemory>
    ensures { OnOk result (string_bytes out.new ≡ string_bytes out.old ++ plain_text order.now samples.now) }
{
    match order {
        Order::Rendezvous => put_samples(out, samples),
        _ => {
            out.push_str("ok")?;
            Ok(())
        }
    }
}

/// What was said to an order.
fn put_said(
    out: &mut String,
    order: &Order,
    said: Said,
    samples: &[Sample],
) -> Result<(), OutOfMemory>
    ensures { OnOk result (string_bytes out.new ≡ string_bytes out.old ++ said_text order.now said samples.now) }
{
    match said {
        Said::Met => out.push_str("met")?,
        Said::Quiet => out.push_str("quiet")?,
        Said::Value(value) => {
            let value = Hex16(value);
            write!(out, "0x{value}")?;
        }
        Said::Done => out.push_str("done")?,
        Said::Unknown => out.push_str("unknown")?,
        Said::Busy => out.push_str("busy")?,
        Said::Plain => put_plain(out, order, samples)?,
    }
    Ok(())
}

/// The line of an order that is done; `number` counts orders from 1.
fn put_answer(out: &mut String, number: u64, answer: &Answer) -> Result<(), OutOfMemory>
    requires { has_registers answer.now.order ≡ true }
    ensures { OnOk result (string_bytes out.new ≡ string_bytes out.old ++ answer_text number answer.now) }
{
    write!(out, "{number} ")?;
    put_order(out, &answer.order)?;
    out.push_str(": ")?;
    put_said(out, &answer.order, answer.said, answer.samples.as_slice())?;
    out.push_str("\n")?;
    Ok(())
}

fn put_answers(out: &mut String, answers: &[Answer]) -> Result<(), OutOfMemory>
    requires { has_orders answers.now ≡ true }
    ensures { OnOk result (string_bytes out.new ≡ string_bytes out.old ++ answers_text 1 answers.now) }
{
    let mut number = 1u64;
    for answer in answers {
        put_answer(out, number, answer)?;
        number += 1;
    }
    Ok(())
}

fn put_cpu(out: &mut String, run: &Run, cpu: u8) -> Result<(), OutOfMemory>
    requires { cpu < cpu_count run.now.state.machine }
    ensures { OnOk result (string_bytes out.new ≡ string_bytes out.old ++ cpu_text run.now.state cpu) }
{
    let ran = run.ran(cpu);
    let rip = Hex16(run.cpu(cpu).ctx.rip);
    write!(out, "cpu {cpu} ran {ran} rip 0x{rip}\n")?;
    Ok(())
}

#[tactic(auto, using(crate::proofs::Ranges::flat_more))]
fn put_cpus(out: &mut String, run: &Run) -> Result<(), OutOfMemory>
    ensures { OnOk result (string_bytes out.new ≡ string_bytes out.old ++ cpus_text run.now.state) }
{
    for cpu in 0..run.cpu_count() {
        put_cpu(out, run, cpu)?;
    }
    Ok(())
}

fn put_tally(out: &mut String, disk: u8, tally: Tally) -> Result<(), OutOfMemory>
    ensures { OnOk result (string_bytes out.new ≡ string_bytes out.old ++ tally_text disk tally) }
{
    let finished = tally.finished;
    let cancelled = tally.cancelled;
    let queued = tally.queued;
    let doubt = tally.doubt;
    write!(
        out,
        "disk {disk} finished {finished} cancelled {cancelled} "
    )?;
    write!(out, "queued {queued} doubt {doubt}\n")?;
    Ok(())
}

fn put_disk(out: &mut String, run: &Run, disk: u8) -> Result<(), OutOfMemory>
    requires { disk < drive_count run.now.state.machine }
    ensures { OnOk result (string_bytes out.new ≡ string_bytes out.old ++ disk_text run.now.state disk) }
{
    put_tally(out, disk, run.tally(disk))
}

#[tactic(auto, using(crate::proofs::Ranges::flat_more))]
fn put_disks(out: &mut String, run: &Run) -> Result<(), OutOfMemory>
    ensures { OnOk result (string_bytes out.new ≡ string_bytes out.old ++ disks_text run.now.state) }
{
    for disk in 0..run.drive_count() {
        put_disk(out, run, disk)?;
    }
    Ok(())
}

/// A line for each variable that isn't built.
fn put_unbuilt(out: &mut String, names: &[Text]) -> Result<(), OutOfMemory>
    ensures { OnOk result (string_bytes out.new ≡ string_bytes out.old ++ unbuilt_text names.now) }
{
    for name in names {
        let name = name.as_str();
        write!(out, "not built: {name}\n")?;
    }
    Ok(())
}

fn put_run(out: &mut String, run: &Run) -> Result<(), OutOfMemory>
    requires { has_orders run.now.state.answers ≡ true }
    ensures { OnOk result (string_bytes out.new ≡ string_bytes out.old ++ run_text run.now.state) }
{
    out.push_str("\n")?;
    put_ended(out, run.ended())?;
    put_counts(out, run.executed(), run.console().len() as u64)?;
    put_answers(out, run.answers())?;
    put_cpus(out, run)?;
    put_disks(out, run)?;
    Ok(())
}

/// The state of each vCPU, where it is asked for.
fn put_state(alloc: Global, out: &mut String, run: &Run, state: bool) -> Result<(), OutOfMemory>
    ensures { OnOk result (string_bytes out.new ≡ string_bytes out.old ++ state_part state run.now.state.machine) }
{
    if state {
        let line = state_json(alloc, run)?;
        out.push_str(line.as_str())?;
    }
    Ok(())
}

/// The report of a run: a line feed; why it ended, or that it is open; the counts of instructions and of console bytes; each
/// order that is done with what was said to it; each vCPU; each disk; each variable of its plan that isn't built; and, where
/// `state` asks for it, the state of each vCPU as one line of JSON.
///
/// The registers that the orders name are below 18.
pub fn report(alloc: Global, run: &Run, plan: &Plan, state: bool) -> Result<String, OutOfMemory>
    requires { has_orders run.now.state.answers ≡ true }
    ensures { IfOk result (λ text. string_bytes text ≡ report_text run.now.state plan.now state) }
{
    let mut text = String::new(alloc);
    put_run(&mut text, run)?;
    put_unbuilt(&mut text, plan.notbuilt.as_slice())?;
    put_state(alloc, &mut text, run, state)?;
    Ok(text)
}
