//! A whole plan, byte for byte, worked out by hand.

use std::test::Fail;
use vm_law::{DiskPlan, Plan, Seq, Text};
use vm_report::plan_json;

#[test]
fn a_plan(rt: HostRuntime) -> Result<(), Fail> {
    let alloc = rt.alloc();
    let mut disks = Seq::new(alloc);
    disks.push(DiskPlan {
        path: Text::from_text(alloc, "disk.img")?,
        ro: false,
        workers: 2,
    })?;
    let mut notbuilt = Seq::new(alloc);
    notbuilt.push(Text::from_text(alloc, "bootrom")?)?;
    notbuilt.push(Text::from_text(alloc, "pci.0.3.0.device")?)?;
    notbuilt.push(Text::from_text(alloc, "pci.0.3.0.backend")?)?;
    let plan = Plan {
        cpus: 4,
        memory: 1_073_741_824,
        name: Text::from_text(alloc, "vm0")?,
        image: Some(Text::from_text(alloc, "guest.img")?),
        script: None,
        disks,
        notbuilt,
    };
    let text = plan_json(alloc, &plan)?;
    assert!(rt;
        text.as_str()
            == "{\"cpus\":4,\"disks\":[{\"path\":\"disk.img\",\"ro\":false,\"workers\":2}],\"image\":\"guest.img\",\"memory\":1073741824,\"name\":\"vm0\",\"notbuilt\":[\"bootrom\",\"pci.0.3.0.device\",\"pci.0.3.0.backend\"],\"script\":null}\n"
    );
    Ok(())
}
