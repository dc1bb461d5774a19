//! The whole text.
ghost use Rattle.std.specs.Prelude.{◌≡◌, ◌<◌, ◌≤◌, ◌+◌, ◌^◌, ℕ, length, IfOk, OnOk, Some};
ghost use Rattle.text_reader.specs.Line.{lines, read_lines};
ghost use Rattle.text_reader.specs.Word.{texts};
ghost use Rattle.vm_law.specs.Image.{IsAllowed};
ghost use Rattle.asm_insn.specs.Spelling.{Speller, IsSpeller};
ghost use Rattle.vm_asm.specs.Line.{name_in};
ghost use Rattle.vm_asm.specs.Layout.{add_name, laid_of, nothing_laid, line_step, names_of, layout_of, known_fault, IsSound, Assembles};
ghost use Rattle.vm_asm.specs.Assembly.{image_of, assembled};

use crate::emission::bytes_with;
use crate::fault::AsmError;
use crate::layout::Layout;
use crate::line::name_in;
use asm_words::place_in;
use std::alloc::{AllocError, Global};
use text_reader::first_line;
use vm_law::{FlatImage, Seq};

/// Adds the name that a line defines, where it isn't among them yet.
fn add_name<'a>(names: &mut Vec<&'a str>, line: &'a [u8]) -> Result<(), AllocError>
    requires { length names.old.items < 2 ^ 32 }
    ensures names { OnOk result (texts names.new.items ≡ add_name (texts names.old.items) (name_in line.now)) }
    ensures few { OnOk result (length names.new.items ≤ length names.old.items + length line.now) }
{
    if line.is_empty() {
        return Ok(());
    }
    let Some(name) = name_in(line) else {
        return Ok(());
    };
    if place_in(names, name).is_some() {
        return Ok(());
    }
    names.push(name)?;
    Ok(())
}

/// The names that the lines of a text define, each once, in the order of their first lines.
#[tactic(auto, unfolding(crate::specs::Layout::names_of))]
fn names_of(alloc: Global, text: &[u8]) -> Result<Vec<&str>, AllocError>
    requires { length text.now < 2 ^ 32 }
    ensures names { IfOk result (λ names. texts names.items ≡ names_of text.now) }
    ensures few { IfOk result (λ names. length names.items < 2 ^ 32) }
{
    let mut names = Vec::new(alloc);
    let mut rest = Some(text);
    while let Some(text) = rest {
        let (line, after) = first_line(text);
        add_name(&mut names, line)?;
        rest = after;
    }
    Ok(names)
}

/// The layout of all lines.
fn laid(alloc: Global, names: &[&str], text: &[u8]) -> Result<Layout, AsmError>
    requires few { length names.now < 2 ^ 32 }
    requires brief { length text.now < 2 ^ 32 }
    ensures told { (spell : Speller) → IsSpeller spell → Assembles laid_of result (read_lines (line_step spell (texts names.now)) 1 (nothing_laid (texts names.now)) (lines text.now)) }
    ensures sound { IfOk result (λ l. IsSound (laid_of l)) }
{
    let mut layout = Layout::new(alloc, names)?;
    let mut number = 1u64;
    let mut rest = Some(text);
    while let Some(text) = rest {
        let (line, after) = first_line(text);
        layout.read_line(alloc, names, number, line)?;
        number += 1;
        rest = after;
    }
    Ok(layout)
}

/// The layout of a text with the end of its code part.
#[tactic(auto, unfolding(crate::specs::Layout::layout_of))]
fn layout_of(alloc: Global, names: &[&str], text: &[u8]) -> Result<Layout, AsmError>
    requires few { length names.now < 2 ^ 32 }
    requires brief { length text.now < 2 ^ 32 }
    ensures told { (spell : Speller) → IsSpeller spell → Assembles laid_of result (layout_of spell (texts names.now) text.now) }
    ensures sound { IfOk result (λ l. IsSound (laid_of l)) }
    ensures ended { IfOk result (λ l. (code : ℕ) × (l.code_end ≡ Some code)) }
{
    let mut layout = laid(alloc, names, text)?;
    layout.end();
    Ok(layout)
}

/// The image of a layout that has ended.
fn image_of(alloc: Global, layout: &Layout) -> Result<FlatImage, AsmError>
    requires sound { IsSound (laid_of layout.now) }
    requires ended { (code : ℕ) × (layout.now.code_end ≡ Some code) }
    ensures told { (spell : Speller) → IsSpeller spell → Assembles (λ f. f) result (image_of spell (known_fault (laid_of layout.now)) (laid_of layout.now)) }
    ensures allowed { IfOk result (IsAllowed 16777216) }
{
    if let Some(error) = layout.known_fault() {
        return Err(error);
    }
    let payload = bytes_with(alloc, &layout.places, &layout.statements)?;
    Ok(FlatImage {
        entry: u64::from(layout.entry_at()),
        code: u64::from(layout.code_end.unwrap_or(0)),
        payload: Seq::from_vec(payload),
    })
}

/// The image that a text spells.
///
/// The first faulty line is answered, counted from 1, with the first kind of fault that it has. `Memory` may be the answer
/// to any text.
#[tactic(auto, unfolding(crate::specs::Assembly::assembled))]
pub fn assemble(alloc: Global, text: &[u8]) -> Result<FlatImage, AsmError>
    requires { length text.now < 2 ^ 32 }
    // The image, or the first faulty line with its kind; `Memory` says nothing.
    ensures told { (spell : Speller) → IsSpeller spell → Assembles (λ f. f) result (assembled spell text.now) }
    // Some memory allows the image, one of 16 MiB among them.
    ensures allowed { IfOk result (IsAllowed 16777216) }
{
    let names = names_of(alloc, text)?;
    let layout = layout_of(alloc, &names, text)?;
    image_of(alloc, &layout)
}
