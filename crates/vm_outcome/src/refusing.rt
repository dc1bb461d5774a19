//! From a file that isn't read to the refusal that says so.
ghost use Rattle.std.specs.Prelude.{◌≡◌};
ghost use Rattle.vm_outcome.specs.Refusing.{after_host, after_load};

use ckpt_store::LoadFault;
use vm_host::HostFault;
use vm_law::Text;
use vm_status::{Kind, Refusal, Role};

/// The refusal of a file at which a call of the host failed.
pub fn after_host(name: Text, fault: HostFault) -> Refusal
    ensures { result ≡ after_host name fault }
{
    match fault {
        HostFault::Missing => Refusal::Missing { name },
        HostFault::Failed => Refusal::HostFault { name },
        HostFault::Memory => Refusal::Memory,
    }
}

/// The refusal of a file that couldn't be read whole, or is longer than `most` bytes.
pub fn after_load(role: Role, name: Text, most: u64, fault: LoadFault) -> Refusal
    ensures { result ≡ after_load role name most fault }
{
    match fault {
        LoadFault::Host(fault) => after_host(name, fault),
        LoadFault::Long => Refusal::Bad {
            role,
            name,
            place: most,
            kind: Kind::Long,
        },
    }
}
