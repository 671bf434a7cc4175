// The list of a bounded length, in memory.
use super::reserved::Reserved;
use std::alloc::AllocError;

#[test]
fn list_keeps_what_has_room(rt: HostRuntime) -> Result<(), AllocError> {
    let mut list: Reserved<u8, 2> = Reserved::new(rt.alloc())?;
    for item in [7, 8, 9] {
        list.push(item);
    }
    assert_eq!(rt; list.as_slice(), [7, 8].as_slice());
    list.clear();
    assert!(rt; list.as_slice().is_empty());
    Ok(())
}
