//! The line of a refusal.
ghost use Rattle.std.specs.Prelude.{◌≡◌, [], decimal, slice_index_or, OnOk, OnErr};
ghost use Rattle.vm_host.specs.Counts.{Counted};
ghost use Rattle.vm_host.specs.Leaves.{Takes, TakesSome};
ghost use Rattle.vm_status.specs.Lines.{pieces_of, place_of, line_of, bad_pieces, plan_pieces, named_pieces, plain_pieces};

use crate::kind::Kind;
use crate::refusal::Refusal;
use crate::role::Role;
use crate::writing::write_all;
use itoa::Buffer;
use vm_host::{Sink, SinkFault};

/// No line has more pieces.
const MOST_PIECES: usize = 9;

/// A piece, from 0, of the line of a file that isn't what it is read as, and nothing past the last.
fn bad_piece<'a>(role: Role, name: &'a str, digits: &'a str, kind: Kind, k: usize) -> &'a str
    ensures { result.now ≡ slice_index_or (bad_pieces role name.entry.now digits.entry.now kind) k [] }
{
    match k {
        0 => "bad ",
        1 => role.word(),
        2 => " ",
        3 => name,
        4 => ": at ",
        5 => digits,
        6 => ": ",
        7 => kind.word(),
        8 => "\n",
        _ => "",
    }
}

/// The same of a configuration that plans no machine.
fn plan_piece<'a>(name: &'a str, variable: &'a str, kind: Kind, k: usize) -> &'a str
    ensures { result.now ≡ slice_index_or (plan_pieces name.entry.now variable.entry.now kind) k [] }
{
    match k {
        0 => "bad plan ",
        1 => name,
        2 => ": ",
        3 => variable,
        4 => ": ",
        5 => kind.word(),
        6 => "\n",
        _ => "",
    }
}

/// The same of a line that ends with a name.
fn named_piece<'a>(text: &'a str, name: &'a str, k: usize) -> &'a str
    ensures { result.now ≡ slice_index_or (named_pieces text.entry.now name.entry.now) k [] }
{
    match k {
        0 => text,
        1 => name,
        2 => "\n",
        _ => "",
    }
}

/// The same of a line that is the same each time.
fn plain_piece(text: &str, k: usize) -> &str
    ensures { result.now ≡ slice_index_or (plain_pieces text.entry.now) k [] }
{
    match k {
        0 => text,
        1 => "\n",
        _ => "",
    }
}

/// A piece of a refusal's line, from 0, and nothing past the last. The digits are those of the place.
fn piece_of<'a>(refusal: &'a Refusal, digits: &'a str, k: usize) -> &'a str
    requires { digits.now ≡ decimal (place_of refusal.now) }
    ensures { result.now ≡ slice_index_or (pieces_of refusal.entry.now) k [] }
{
    match refusal {
        Refusal::Usage => plain_piece(
            "usage: vmrun run|solo|replay|show|asm|make|convert|arrive|inspect",
            k,
        ),
        Refusal::Bad {
            role,
            name,
            kind,
            ..
        } => bad_piece(*role, name.as_str(), digits, *kind, k),
        Refusal::BadPlan {
            name,
            variable,
            kind,
        } => plan_piece(name.as_str(), variable.as_str(), *kind, k),
        Refusal::HostFault { name } => named_piece("host fault: ", name.as_str(), k),
        Refusal::Missing { name } => named_piece("missing: ", name.as_str(), k),
        Refusal::Console => plain_piece("console fault", k),
        Refusal::Memory => plain_piece("out of memory", k),
    }
}

/// The place that a line tells, 0 where it tells none.
fn place_of(refusal: &Refusal) -> u64
    ensures { result ≡ place_of refusal.now }
{
    match refusal {
        Refusal::Bad { place, .. } => *place,
        _ => 0,
    }
}

/// Writes the line that says why a command did not do its work, and takes no memory for it. Where the sink fails it has
/// taken a first part of the line.
pub fn write_line<S: Sink>(refusal: &Refusal, sink: &mut S) -> Result<(), SinkFault>
    ensures whole { OnOk result (Takes (line_of refusal.now) (S.seen sink.old) (S.seen sink.new)) }
    ensures part { OnErr result (TakesSome (line_of refusal.now) (S.seen sink.old) (S.seen sink.new)) }
    ensures cause { Counted (S.seen sink.old).faults (S.seen sink.new).faults result }
{
    let mut buffer = Buffer::new();
    let digits = buffer.format(place_of(refusal));
    for k in 0..MOST_PIECES {
        write_all(sink, piece_of(refusal, digits, k).as_bytes())?;
    }
    Ok(())
}
