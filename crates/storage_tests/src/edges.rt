use dynamic_storage::{Condition, DynamicStorage, Stage};
use shm_allocator::{PointerOffset, SegmentId};
use std::process::Abort;
use storage_backings::{Borrowed, BorrowedBytes, BorrowedWords};
use storage_layers::Window;

// Broken, empty, and not to be changed.
fn is_nothing<S: DynamicStorage>(rt: &impl Abort, storage: &mut S) {
    assert_eq!(rt; storage.condition(), Condition::Broken);
    assert_eq!(rt; storage.len(), 0);
    assert_eq!(rt; storage.read(0), None);
    assert_eq!(rt; storage.read(u64::MAX), None);
    assert!(rt; !storage.write(0, 1));
    assert!(rt; !storage.write(u64::MAX, 1));
    assert!(rt; !storage.set_condition(Stage::Ready));
}

#[test]
fn no_memory(rt: HostRuntime) {
    let mut words: [u64; 0] = [];
    is_nothing(&rt, &mut BorrowedWords::new(&mut words));
    assert!(rt; !BorrowedWords::new(&mut words).write_code(2));
    let mut bytes: [u8; 0] = [];
    is_nothing(&rt, &mut BorrowedBytes::new(&mut bytes));
    assert!(rt; !BorrowedBytes::new(&mut bytes).write_code(2));
}

#[test]
fn less_than_a_word(rt: HostRuntime) {
    let mut one = [2u8];
    is_nothing(&rt, &mut BorrowedBytes::new(&mut one));
    let mut seven = [2u8, 0, 0, 0, 0, 0, 0];
    is_nothing(&rt, &mut BorrowedBytes::new(&mut seven));
    assert_eq!(rt; one, [2]);
    assert_eq!(rt; seven, [2, 0, 0, 0, 0, 0, 0]);
}

#[test]
fn memory_without_words(rt: HostRuntime) {
    let mut words: [u64; 0] = [];
    is_nothing(&rt, &mut Borrowed::new(&mut words[..]));
    assert!(rt; !Borrowed::new(&mut words[..]).write_code(2));
    let mut seven = [2u8, 0, 0, 0, 0, 0, 0];
    is_nothing(&rt, &mut Borrowed::new(&mut seven[..]));
    assert!(rt; !Borrowed::new(&mut seven[..]).write_code(3));
    assert_eq!(rt; seven, [2, 0, 0, 0, 0, 0, 0]);
}

#[test]
fn a_code_and_odd_bytes(rt: HostRuntime) {
    let mut bytes = [1u8, 0, 0, 0, 0, 0, 0, 0, 9, 9, 9, 9, 9, 9, 9];
    let mut storage = BorrowedBytes::new(&mut bytes);
    assert_eq!(rt; storage.condition(), Condition::Forming);
    assert_eq!(rt; storage.len(), 0);
    assert!(rt; !storage.write(0, 3));
    assert!(rt; storage.set_condition(Stage::Absent));
    storage.hand_back();
    assert_eq!(rt; bytes, [0, 0, 0, 0, 0, 0, 0, 0, 9, 9, 9, 9, 9, 9, 9]);
}

#[test]
fn codes(rt: HostRuntime) {
    let mut memory = [0u64; 2];
    let mut storage = BorrowedWords::new(&mut memory);
    assert_eq!(rt; storage.condition(), Condition::Absent);
    assert!(rt; storage.write_code(3));
    assert_eq!(rt; storage.condition(), Condition::Broken);
    assert!(rt; storage.write_code(4));
    assert!(rt; !storage.set_condition(Stage::Absent));
    assert_eq!(rt; storage.condition(), Condition::Broken);
    assert!(rt; storage.write_code(5));
    assert_eq!(rt; storage.condition(), Condition::OtherVersion);
    assert!(rt; storage.write_code(u64::MAX));
    assert!(rt; !storage.set_condition(Stage::Ready));
    assert!(rt; storage.write(0, 6));
    drop(storage);
    assert_eq!(rt; memory, [u64::MAX, 6]);
}

// Sums of a window's place and count may pass 2^64.
#[test]
fn windows_far_out(rt: HostRuntime) {
    let mut memory = [2u64, 1, 5, 6];
    is_nothing(&rt, &mut Window::new(BorrowedWords::new(&mut memory), 3, 1));
    is_nothing(
        &rt,
        &mut Window::new(BorrowedWords::new(&mut memory), u64::MAX, u64::MAX),
    );
    let mut all = Window::new(BorrowedWords::new(&mut memory), 0, u64::MAX);
    assert_eq!(rt; all.len(), 2);
    assert_eq!(rt; all.read(1), Some(6));
    assert_eq!(rt; all.read(2), None);
    assert!(rt; !all.write(u64::MAX, 9));
    drop(all);
    let mut none = Window::new(BorrowedWords::new(&mut memory), 2, 7);
    assert_eq!(rt; none.condition(), Condition::OtherVersion);
    assert_eq!(rt; none.len(), 0);
    assert!(rt; !none.set_condition(Stage::Ready));
    drop(none);
    assert_eq!(rt; memory, [2, 1, 5, 6]);
}

#[test]
fn offsets(rt: HostRuntime) {
    let place = PointerOffset::from_offset_and_segment_id(64, SegmentId::new(3));
    assert_eq!(rt; place.as_value(), 16387);
    assert_eq!(rt; place.parts(), (3, 64));
    let last = PointerOffset::from_offset_and_segment_id(u64::MAX, SegmentId::new(255));
    assert_eq!(rt; last.as_value(), u64::MAX);
    assert_eq!(rt; last.parts(), (255, (1 << 56) - 1));
    let mut moved = PointerOffset::new(1 << 56);
    moved.set_segment_id(SegmentId::new(SegmentId::max_segment_id()));
    assert_eq!(rt; moved.as_value(), 255);
}
