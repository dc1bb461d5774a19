use std::test::Fail;
use vm_host::Sink;
use vm_hostreal::OutSink;

#[test]
fn output_takes_bytes(rt: HostRuntime) -> Result<(), Fail> {
    let mut sink = OutSink::new(rt.clone()?);
    assert_eq!(rt; sink.write(b"ok\n")?, 3);
    Ok(())
}
