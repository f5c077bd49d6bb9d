//! Writes a certificate whole, and to a sink that fails.
use crate::certificate::write_list;
use roman_io::{Failed, MemSink};
use roman_model::Reason;
use roman_order::Order;
use std::test::Fail;

#[test]
fn a_list_is_written(rt: HostRuntime) -> Result<(), Fail> {
    let mut order = Order::build(rt.alloc(), 6)?;
    order.shape_to(2, 3);
    order.push(1, Reason::Final);
    order.push(2, Reason::Act(0));
    order.push(3, Reason::Act(1));
    order.push(5, Reason::Act(1));
    order.push(0, Reason::Act(0));
    order.push(4, Reason::Act(1));
    let text = "roman-order 1\npairs 6\n1 f\n2 0\n3 1\n5 1\n0 0\n4 1\nend\n";
    let mut sink = MemSink::new(rt.alloc(), Vec::new(rt.alloc()));
    assert_eq!(rt; write_list(6, &order, &mut sink), Ok(()));
    assert_eq!(rt; sink.bytes(), text.as_bytes());
    let mut full = MemSink::new(rt.alloc(), [0].to_vec(rt.alloc())?);
    assert_eq!(rt; write_list(6, &order, &mut full), Err(Failed));
    assert!(rt; text.as_bytes().starts_with(full.bytes()));
    Ok(())
}
