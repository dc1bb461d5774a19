//! The line of the total.
ghost use Rattle.std.specs.Prelude.{◌≡◌, ◌≤◌, [], slice_index_or, OnOk, OnErr};
ghost use Rattle.vm_host.specs.Counts.{Counted};
ghost use Rattle.vm_host.specs.Leaves.{Takes};
ghost use Rattle.vm_making.specs.Line.{TakesUpTo, total_line, total_pieces};

use crate::counting::{counts_of, sum_of};
use itoa::Buffer;
use vm_host::{Sink, SinkFault};
use vm_status::write_all;

/// How many pieces the line has.
const PIECES: usize = 7;

/// A piece of the line, from 0, and nothing past the last.
fn piece_of<'a>(cpus: &'a str, number: &'a str, total: &'a str, k: usize) -> &'a str
    ensures { result.now ≡ slice_index_or (total_pieces cpus.entry.now number.entry.now total.entry.now) k [] }
{
    match k {
        0 => "workload ",
        1 => cpus,
        2 => " ",
        3 => number,
        4 => " total ",
        5 => total,
        6 => "\n",
        _ => "",
    }
}

/// Writes the line that tells the total of the counts, and takes no memory for it. Where the sink fails it has taken a first
/// part of the line, and not the whole.
pub(crate) fn write_total<S: Sink>(cpus: u8, number: u32, sink: &mut S) -> Result<(), SinkFault>
    requires { cpus ≤ 16 }
    ensures whole { OnOk result (Takes (total_line cpus number) (S.seen sink.old) (S.seen sink.new)) }
    ensures part { OnErr result (TakesUpTo [] (total_line cpus number) (S.seen sink.old) (S.seen sink.new)) }
    ensures cause { Counted (S.seen sink.old).faults (S.seen sink.new).faults result }
{
    let mut cpus_buffer = Buffer::new();
    let mut number_buffer = Buffer::new();
    let mut total_buffer = Buffer::new();
    let total = sum_of(counts_of(cpus, number).as_slice());
    let cpus_digits = cpus_buffer.format(cpus);
    let number_digits = number_buffer.format(number);
    let total_digits = total_buffer.format(total);
    for k in 0..PIECES {
        write_all(
            sink,
            piece_of(cpus_digits, number_digits, total_digits, k).as_bytes(),
        )?;
    }
    Ok(())
}
