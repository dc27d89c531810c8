// The test of lrs_noted.
use lrs_noted::Noted;
use std::mem::size_of_val;

#[test]
fn a_list_has_no_bytes(rt: HostRuntime) {
    let list = Noted::new().and(&1).and(&2);
    assert!(rt; size_of_val(&list) == 0);
}
