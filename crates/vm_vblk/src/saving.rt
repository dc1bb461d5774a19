ghost use Rattle.std.specs.Prelude.{◌≡◌};
ghost use Rattle.vm_vblk.specs.Window.{IsState};

use crate::window::Window;
use vm_law::WindowState;

impl Window {
    /// The window's state, which tells it whole.
    pub fn saved(&self) -> WindowState
        ensures state { result ≡ self.now }
        ensures lawful { IsState result }
    {
        self.state
    }

    /// The window that has a state which one can have. Where the queue is ready, whether its tables lie well is for the
    /// caller to see, since it depends on the guest's memory.
    pub fn from_saved(state: &WindowState) -> Window
        requires { IsState state.now }
        ensures { result ≡ state.now }
    {
        Window { state: *state }
    }
}
