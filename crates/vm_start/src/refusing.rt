//! From what is wrong with a file to the refusal that says so.
ghost use Rattle.std.specs.Prelude.{◌≡◌, ◌⊎◌};
ghost use Rattle.vm_start.specs.Kinds.{cfg_kind, plan_kind, image_kind, script_kind};
ghost use Rattle.vm_start.specs.Steps.{after_host, after_load};

use cfg_text::CfgKind;
use cfg_vm::PlanKind;
use ckpt_store::LoadFault;
use ctl_script::ScriptKind;
use std::alloc::Global;
use vm_host::HostFault;
use vm_image::ImageKind;
use vm_law::Text;
use vm_status::{Kind, Refusal, Role};

/// The kind of a configuration's fault.
pub(crate) fn cfg_kind(kind: CfgKind) -> Kind
    ensures { result ≡ cfg_kind kind }
{
    match kind {
        CfgKind::Text => Kind::Text,
        CfgKind::Equals => Kind::Equals,
        CfgKind::Name => Kind::Name,
        CfgKind::Percent => Kind::Percent,
    }
}

/// The kind of a plan's fault.
pub(crate) fn plan_kind(kind: PlanKind) -> Kind
    ensures { result ≡ plan_kind kind }
{
    match kind {
        PlanKind::Number => Kind::Number,
        PlanKind::Range => Kind::Range,
        PlanKind::Path => Kind::Path,
        PlanKind::Boolean => Kind::Boolean,
        PlanKind::Many => Kind::Many,
    }
}

/// The kind of an image's fault.
pub(crate) fn image_kind(kind: ImageKind) -> Kind
    ensures { result ≡ image_kind kind }
{
    match kind {
        ImageKind::Magic => Kind::Magic,
        ImageKind::Short => Kind::Short,
        ImageKind::Code => Kind::Code,
        ImageKind::Entry => Kind::Entry,
        ImageKind::Large => Kind::Large,
    }
}

/// The kind of a script's fault.
pub(crate) fn script_kind(kind: ScriptKind) -> Kind
    ensures { result ≡ script_kind kind }
{
    match kind {
        ScriptKind::Text => Kind::Text,
        ScriptKind::Word => Kind::Word,
        ScriptKind::Number => Kind::Number,
        ScriptKind::Order => Kind::Order,
        ScriptKind::Cpu => Kind::Cpu,
        ScriptKind::Disk => Kind::Disk,
        ScriptKind::Many => Kind::Many,
    }
}

/// The refusal of a file at its first fault, or want of memory.
pub(crate) fn bad(alloc: Global, role: Role, name: &str, place: u64, kind: Kind) -> Refusal
    ensures { (result ≡ Refusal.Memory) ⊎ (result ≡ Refusal.Bad role name.now place kind) }
{
    match Text::from_text(alloc, name) {
        Ok(name) => Refusal::Bad {
            role,
            name,
            place,
            kind,
        },
        Err(_) => Refusal::Memory,
    }
}

/// The refusal of a file at which a call of the host failed.
pub(crate) fn after_host(name: Text, fault: HostFault) -> Refusal
    ensures { result ≡ after_host name fault }
{
    match fault {
        HostFault::Missing => Refusal::Missing { name },
        HostFault::Failed => Refusal::HostFault { name },
        HostFault::Memory => Refusal::Memory,
    }
}

/// The refusal of a file that couldn't be read whole, or is longer than `most` bytes.
pub(crate) fn after_load(role: Role, name: Text, most: u64, fault: LoadFault) -> Refusal
    ensures { result ≡ after_load role name most fault }
{
    match fault {
        LoadFault::Host(fault) => after_host(name, fault),
        LoadFault::Long => Refusal::Bad {
            role,
            name,
            place: most,
            kind: Kind::Long,
        },
    }
}
