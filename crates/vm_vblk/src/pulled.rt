use vm_law::Request;

/// What follows from a write to a window.
#[derive(Clone, Copy, Debug, PartialEq, Eq)]
pub enum WindowEffect {
    Nothing,
    /// The driver reset the device: no request of it is to be carried out any more.
    Reset,
}

/// What became of the chain that stood next.
#[derive(PartialEq, Drop)]
pub enum Pulled {
    /// It is a request, which is to be carried out and then finished.
    Request(Request),
    /// It was completed with a status.
    Answered,
    /// It made no sense, and the device is broken until it is reset.
    Broken,
}
