//! What a pass of a vCPU chooses.
ghost use Rattle.std.specs.Prelude.{◌≡◌, ◌+◌, ◌≤◌, ◌<◌};
ghost use Rattle.vm_state.specs.Machine.{cpu_count};
ghost use Rattle.vm_table.specs.Rounds.{chosen};
ghost use Rattle.vm_board.specs.Turn.{some_entry};
ghost use Rattle.vm_vcpu.specs.Turn.{Grows};

use vm_board::Board;
use vm_host::Image;

/// Adds the first lawful entry of the list of a vCPU's runner, and says whether there is one.
pub(crate) fn choose<I: Image + Drop>(board: &mut Board<I>, cpu: u8, by: u16) -> bool
    requires there { cpu < cpu_count board.old.state.machine }
    requires pass { by ≡ 1 + cpu }
    requires room { 1 ≤ board.old.room }
    ensures grows { Grows board.old board.new (chosen board.old.state by) }
    ensures some { result ≡ some_entry (chosen board.old.state by) }
{
    board.add_first(by)
}
