//! Serials, up to the last one.
use serial_map::{Serials, Spent};

#[test]
fn serials_count_from_1(rt: HostRuntime) {
    let mut serials = Serials::new();
    assert_eq!(rt; serials.left(), 4_294_967_295);
    for serial in [1, 2, 3] {
        assert_eq!(rt; serials.next(), Ok(serial));
    }
    assert_eq!(rt; serials.left(), 4_294_967_292);
}

#[test]
fn serials_end_at_the_last(rt: HostRuntime) {
    let mut serials = Serials::after(4_294_967_294);
    assert_eq!(rt; serials.left(), 1);
    assert_eq!(rt; serials.next(), Ok(4_294_967_295));
    for _ in 0..2 {
        assert_eq!(rt; serials.left(), 0);
        assert_eq!(rt; serials.next(), Err(Spent));
    }
}
