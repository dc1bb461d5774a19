ghost use Rattle.std.specs.Prelude.{◌≡◌, ◌<◌, ◌≤◌, ◌+◌, ◌^◌, ◌++◌, ◌∷◌, [], length, None, IfOk, OnOk, string_bytes};
ghost use Rattle.std.specs.Str.{bytes_eq};
ghost use Rattle.std.specs.Map.{lookup};
ghost use Rattle.indexmap.specs.IndexMap.{index_map_len};
ghost use Rattle.cfg_text.specs.Line.{read_line};
ghost use Rattle.cfg_text.specs.Lines.{read_one, read_written, Adds, Answers, variables_of};
ghost use Rattle.cfg_text.specs.Config.{pairs_of, IsGrown};
ghost use Rattle.cfg_text.specs.Values.{read, read_values};

use crate::config::Config;
use crate::error::{CfgError, CfgKind};
use crate::expand::{Refusal, Variables, Written, expand};
use crate::line::{Line, line_of};
use indexmap::IndexMap;
use std::alloc::Global;
use text_reader::first_line;

/// How many bytes the expanded values of a configuration may have in all: 16 MiB.
const MOST_EXPANDED: usize = 16_777_216;

/// Adds what a line says to the variables; `number` counts lines from 1.
fn add_line<'a>(variables: &mut Variables<'a>, number: u64, line: &'a [u8]) -> Result<(), CfgError>
    requires { number + length line.now ≤ 2 ^ 32 }
    ensures value { Adds (variables_of variables.new.entries) result (read_one (read_line line.now) number (variables_of variables.old.entries)) }
    ensures grows { OnOk result (index_map_len variables.new ≤ index_map_len variables.old + length line.now) }
{
    if line.is_empty() {
        return Ok(());
    }
    let number = number as u32;
    match line_of(line) {
        Line::Skipped => Ok(()),
        Line::Variable(name, value) => {
            let written = Written {
                value,
                line: number,
            };
            match variables.insert(name, written) {
                Ok(_) => Ok(()),
                Err(_) => Err(CfgError::Memory),
            }
        }
        Line::Faulty(kind) => Err(CfgError::Fault { line: number, kind }),
    }
}

/// The variables of a text with their values as written.
fn written<'a>(alloc: Global, bytes: &'a [u8]) -> Result<Variables<'a>, CfgError>
    requires { length bytes.now < 2 ^ 32 }
    ensures value { Answers (λ m. variables_of m.entries) result (read_written bytes.now) }
    ensures few { IfOk result (λ m. index_map_len m < 2 ^ 32) }
{
    let mut variables = IndexMap::new(alloc);
    let mut number = 1u64;
    let mut rest = Some(bytes);
    while let Some(text) = rest {
        let (line, after) = first_line(text);
        add_line(&mut variables, number, line)?;
        number += 1;
        rest = after;
    }
    Ok(variables)
}

/// Adds a variable of another name than those that are there.
fn add_value(
    alloc: Global,
    expanded: &mut IndexMap<String, String>,
    name: &str,
    value: String,
) -> Result<(), CfgError>
    requires { lookup (bytes_eq name.now) (pairs_of expanded.old.entries) ≡ None }
    ensures { IsGrown (pairs_of expanded.old.entries ++ (name.now, string_bytes value) ∷ []) (pairs_of expanded.new.entries) result }
{
    let Ok(name) = String::from_str(alloc, name) else {
        return Err(CfgError::Memory);
    };
    match expanded.insert(name, value) {
        Ok(_) => Ok(()),
        Err(_) => Err(CfgError::Memory),
    }
}

/// The variables with each `%(name)` in their values replaced.
fn values(alloc: Global, variables: &Variables) -> Result<Config, CfgError>
    requires { index_map_len variables.now < 2 ^ 32 }
    ensures { Answers (λ c. c) result (read_values (variables_of variables.now.entries)) }
{
    let mut expanded = IndexMap::new(alloc);
    let mut total = 0;
    for (name, written) in variables.iter() {
        let value = match expand(alloc, variables, written.value, MOST_EXPANDED - total) {
            Ok(value) => value,
            Err(Refusal::Long) => return Err(CfgError::Fault {
                line: written.line,
                kind: CfgKind::Percent,
            }),
            Err(Refusal::Memory) => return Err(CfgError::Memory),
        };
        total += value.len();
        add_value(alloc, &mut expanded, *name, value)?;
    }
    Ok(Config::new(expanded))
}

/// The configuration that a text spells.
///
/// Lines end at LF or at the end of the text, and a CR before LF is no part of a line. A blank line and one that begins
/// with `#` behind its spaces and tabs are skipped. Each other line is `name=value`. A later line of the same name
/// replaces the value and keeps the place.
/// Answers `Fault` exactly where a line is faulty, with the first such line and the first kind that it has, or, where none
/// is, with the line that gave the value with which the expanded values pass 16 MiB; `Memory` where an allocation was
/// refused.
pub fn read(alloc: Global, bytes: &[u8]) -> Result<Config, CfgError>
    requires { length bytes.now < 2 ^ 32 }
    ensures { Answers (λ c. c) result (read bytes.now) }
{
    let variables = written(alloc, bytes)?;
    values(alloc, &variables)
}
