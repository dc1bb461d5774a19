//! The workload: a guest that counts on several vCPUs and writes the total.
ghost use Rattle.std.specs.Prelude.{◌≡◌, ◌<◌, ◌≤◌, ◌++◌, length, Ok, IfOk, OnOk, string_bytes};
ghost use Rattle.std.specs.List.{flat_map};
ghost use Rattle.vm_law.specs.Image.{IsAllowed};
ghost use Rattle.asm_insn.specs.Spelling.{Speller, IsSpeller};
ghost use Rattle.vm_asm.specs.Assembly.{assembled};
ghost use Rattle.vm_asm.specs.Workload.{counting, writing, boot, cells, waiting, count_line, boot_if, workload_text};

use crate::assembling::assemble;
use std::alloc::{AllocError, Global};
use vm_law::{FlatImage, OutOfMemory};

/// What each vCPU runs from address 0 on: it adds 1 to the total as often as its count says, and 1 to the number of those
/// that are ready. All but vCPU 0 halt.
#[tactic(auto, unfolding(crate::specs::Workload::counting))]
fn counting() -> &'static str
    ensures { result.now ≡ counting }
{
    "start: mov ebx,0xfee00020 ; the local APIC's ID, above bit 24
mov eax,dword [rbx]
shr eax,24
mov ecx,dword [rax*4+counts]
test ecx,ecx
je counted
again: lock add dword [total],1
dec ecx
jne again
counted: lock add dword [ready],1
test eax,eax
je wait
hlt
"
}

/// What vCPU 0 runs then, once all are ready: it writes the total as eight hexadecimal digits and a line feed to the serial
/// port.
#[tactic(auto, unfolding(crate::specs::Workload::writing))]
fn writing() -> &'static str
    ensures { result.now ≡ writing }
{
    "jne wait
mov ebx,dword [total]
mov ecx,8
mov edx,0x3f8
digit: rol ebx,4
mov eax,ebx
and eax,15
mov al,byte [rax+digits]
out dx,al
dec ecx
jne digit
mov al,10
out dx,al
hlt
"
}

/// Where vCPU 0 begins: it sends start-up with vector 0 to all but itself.
#[tactic(auto, unfolding(crate::specs::Workload::boot))]
fn boot() -> &'static str
    ensures { result.now ≡ boot }
{
    "boot: mov ebx,0xfee00300 ; the interrupt command register
mov dword [rbx],0xc0600
jmp start
.entry boot
"
}

/// The digits, the total and the number of those that are ready.
#[tactic(auto, unfolding(crate::specs::Workload::cells))]
fn cells() -> &'static str
    ensures { result.now ≡ cells }
{
    ".data
digits: .qword 0x3736353433323130
.qword 0x4645444342413938
total: .dword 0
ready: .dword 0
counts:
"
}

/// Adds the counts.
fn put_counts(text: &mut String, counts: &[u32]) -> Result<(), AllocError>
    ensures { OnOk result (string_bytes text.new ≡ string_bytes text.old ++ flat_map count_line counts.now) }
{
    for count in counts {
        write!(text, ".dword {count}\n")?;
    }
    Ok(())
}

/// Adds where vCPU 0 begins, if there are others.
fn put_boot(text: &mut String, cpus: usize) -> Result<(), AllocError>
    ensures { OnOk result (string_bytes text.new ≡ string_bytes text.old ++ boot_if cpus) }
{
    if cpus > 1 {
        text.push_str(boot())?;
    }
    Ok(())
}

/// Adds where vCPU 0 waits for so many to be ready.
fn put_waiting(text: &mut String, cpus: usize) -> Result<(), AllocError>
    ensures { OnOk result (string_bytes text.new ≡ string_bytes text.old ++ waiting cpus) }
{
    write!(text, "wait: cmp dword [ready],{cpus}\n")
}

/// The text of the guest.
fn text_of(alloc: Global, counts: &[u32]) -> Result<String, AllocError>
    ensures { IfOk result (λ text. string_bytes text ≡ workload_text counts.now) }
{
    let cpus = counts.len();
    let mut text = String::from_str(alloc, counting())?;
    put_waiting(&mut text, cpus)?;
    text.push_str(writing())?;
    put_boot(&mut text, cpus)?;
    text.push_str(cells())?;
    put_counts(&mut text, counts)?;
    Ok(text)
}

/// A guest for as many vCPUs as there are counts. Each vCPU adds 1 with LOCK ADD to one doubleword as often as its count
/// says, and vCPU 0, which starts the others, writes the sum of the counts modulo 2^32 as eight hexadecimal digits and a
/// line feed to the serial port, and halts.
pub fn workload(alloc: Global, counts: &[u32]) -> Result<FlatImage, OutOfMemory>
    requires some { 0 < length counts.now }
    requires few { length counts.now ≤ 16 }
    ensures image { (spell : Speller) → IsSpeller spell → IfOk result (λ f. assembled spell (workload_text counts.now) ≡ Ok f) }
    ensures allowed { IfOk result (IsAllowed 16777216) }
{
    let text = text_of(alloc, counts)?;
    match assemble(alloc, text.as_str().as_bytes()) {
        Ok(image) => Ok(image),
        Err(_) => Err(OutOfMemory),
    }
}
