//! The sum of a sample.
use crate::runs::run_over;
use std::test::Fail;

#[test]
fn a_sample_is_summed_up(rt: HostRuntime) -> Result<(), Fail> {
    let ended = run_over(&rt, rt.alloc(), "sample 3 1", Vec::new(rt.alloc()), 200)?;
    assert_eq!(rt; (ended.code, ended.err.bytes.len()), (0, 0));
    assert_eq!(rt;
        ended.out.bytes.as_slice(),
        b"items 8 passed 1 pings 1 shown 3 instead 1 hidden 2 to-bus 680 to-client 434\n".as_slice()
    );
    Ok(())
}
