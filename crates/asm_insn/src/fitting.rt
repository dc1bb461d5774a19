//! Which fields hold a label, and whether labels are defined and numbers fit their fields.
ghost use Rattle.std.specs.Prelude.{◌≡◌};
ghost use Rattle.asm_insn.specs.Fitting.{has_displacement_label, is_label_operand, any_operand, labels_of, is_defined_value, is_defined_operand, are_defined, value_fits, operand_fits, all_fit};

use crate::argument::is_scale;
use asm_words::{Field, Operand, Operands, Value, holds, names_label};
use vm_law::Width;
use x86_encode::Labels;

/// Whether an operand's displacement is a label.
fn has_displacement_label(operand: &Operand) -> bool
    ensures { result ≡ has_displacement_label operand.now }
{
    match operand {
        Operand::Memory(_, memory) => names_label(memory.displacement),
        _ => false,
    }
}

/// Whether an operand is a label.
fn is_label_operand(operand: &Operand) -> bool
    ensures { result ≡ is_label_operand operand.now }
{
    match operand {
        Operand::Value(value) => names_label(*value),
        _ => false,
    }
}

/// Whether an operand's label, if it has one, is defined.
fn is_defined_operand(operand: &Operand) -> bool
    ensures { result ≡ is_defined_operand operand.now }
{
    match operand {
        Operand::Memory(_, memory) => is_defined_value(memory.displacement),
        Operand::Value(value) => is_defined_value(*value),
        _ => true,
    }
}

/// Whether a value is no label that is defined nowhere.
pub fn is_defined_value(value: Value) -> bool
    ensures { result ≡ is_defined_value value }
{
    !matches!(value, Value::Undefined)
}

/// Whether a value is a label, or a number that the field holds.
pub fn value_fits(field: Field, value: Value) -> bool
    ensures { result ≡ value_fits field value }
{
    match value {
        Value::Number(n) => holds(field, n),
        _ => true,
    }
}

/// Whether the numbers of an operand fit, an immediate into the field.
fn operand_fits(field: Field, operand: &Operand) -> bool
    ensures { result ≡ operand_fits field operand.now }
{
    match operand {
        Operand::Register(_, _) => true,
        Operand::Memory(_, memory) => {
            is_scale(memory.scale) && value_fits(Field::Extended(Width::D), memory.displacement)
        }
        Operand::Value(value) => value_fits(field, *value),
        Operand::Distance(n) => holds(Field::Extended(Width::D), *n),
    }
}

/// Whether the test holds of one of the operands.
macro_rules! any_operand {
    ($operands:ident, $test:ident) => {
        match $operands {
            Operands::None => false,
            Operands::One(a) => $test(a),
            Operands::Two(a, b) => $test(a) || $test(b),
            Operands::Three(a, b, c) => $test(a) || $test(b) || $test(c),
        }
    };
}

fn has_displacement(operands: &Operands) -> bool
    ensures { result ≡ any_operand has_displacement_label operands.now }
{
    any_operand!(operands, has_displacement_label)
}

fn has_immediate(operands: &Operands) -> bool
    ensures { result ≡ any_operand is_label_operand operands.now }
{
    any_operand!(operands, is_label_operand)
}

/// Which fields hold a label.
pub fn labels_of(operands: &Operands) -> Labels
    ensures { result ≡ labels_of operands.now }
{
    Labels {
        displacement: has_displacement(operands),
        immediate: has_immediate(operands),
    }
}

/// Whether each label among the operands is defined.
pub fn are_defined(operands: &Operands) -> bool
    ensures { result ≡ are_defined operands.now }
{
    match operands {
        Operands::None => true,
        Operands::One(a) => is_defined_operand(a),
        Operands::Two(a, b) => is_defined_operand(a) && is_defined_operand(b),
        Operands::Three(a, b, c) => {
            is_defined_operand(a) && is_defined_operand(b) && is_defined_operand(c)
        }
    }
}

/// Whether the numbers of each operand fit, an immediate into the field.
pub fn all_fit(field: Field, operands: &Operands) -> bool
    ensures { result ≡ all_fit field operands.now }
{
    match operands {
        Operands::None => true,
        Operands::One(a) => operand_fits(field, a),
        Operands::Two(a, b) => operand_fits(field, a) && operand_fits(field, b),
        Operands::Three(a, b, c) => {
            operand_fits(field, a) && operand_fits(field, b) && operand_fits(field, c)
        }
    }
}
