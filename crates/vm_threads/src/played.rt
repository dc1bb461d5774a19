//! What a run in threads gives back.

use vm_board::Board;
use vm_control::OutFault;
use vm_host::Image;

/// A run that was played: its board, and the first failure of control's work outside.
#[derive(Drop)]
pub struct Played<I: Image + Drop> {
    /// The start, the journal, the run and the images.
    pub board: Board<I>,
    /// The first failure outside, or `Memory` where anybody wanted memory.
    pub answer: Result<(), OutFault>,
}
