use stack::{Full, Stack};

#[test]
fn a_full_stack_refuses_and_stays_as_it_is(rt: HostRuntime) {
    let mut slots = [0u8; 2];
    let mut stack = Stack::new(&mut slots);
    assert_eq!(rt; stack.push(5), Ok(()));
    assert_eq!(rt; stack.push(6), Ok(()));
    assert_eq!(rt; stack.push(7), Err(Full));
    assert_eq!(rt; stack.pop(), Some(6));
    assert_eq!(rt; stack.pop(), Some(5));
    assert_eq!(rt; stack.pop(), None);
}

#[test]
fn a_stack_without_room_holds_nothing(rt: HostRuntime) {
    let mut slots: [u8; 0] = [];
    let mut stack = Stack::new(&mut slots);
    assert_eq!(rt; stack.push(1), Err(Full));
    stack.replace(2);
    assert_eq!(rt; stack.top(), None);
}

#[test]
fn replacing_changes_the_top_alone(rt: HostRuntime) {
    let mut slots = [0u8; 3];
    let mut stack = Stack::new(&mut slots);
    assert_eq!(rt; stack.push(1), Ok(()));
    assert_eq!(rt; stack.push(2), Ok(()));
    stack.replace(9);
    assert_eq!(rt; stack.top(), Some(9));
    assert_eq!(rt; stack.pop(), Some(9));
    assert_eq!(rt; stack.top(), Some(1));
}
