//! What a fault of an image says.
ghost use Rattle.vm_image.specs.Fault.{FaultsAreAll};

/// Bytes without a fault are exactly those of an image that the memory allows.
pub fn faults_are_all()
    ensures { FaultsAreAll }
{}
