use crate::stamping::stamp;
use dynamic_storage::{Condition, DynamicStorage};
use storage_backings::{BorrowedBytes, BorrowedWords, ProcessLocal};
use storage_layers::{ByteSwapped, Window};

#[test]
fn words(rt: HostRuntime) {
    let mut memory = [0u64, 11, 22, 33];
    stamp(&mut BorrowedWords::new(&mut memory));
    assert_eq!(rt; memory, [2, 0x0102_0304_0506_0708, 255, 33]);
}

#[test]
fn bytes(rt: HostRuntime) {
    let mut memory = [0u8; 27];
    memory[24] = 9;
    memory[26] = 8;
    stamp(&mut BorrowedBytes::new(&mut memory));
    assert_eq!(rt;
        memory,
        [
            2, 0, 0, 0, 0, 0, 0, 0, 8, 7, 6, 5, 4, 3, 2, 1, 255, 0, 0, 0, 0, 0, 0, 0, 9, 0, 8,
        ]
    );
}

#[test]
fn inner(rt: HostRuntime) {
    let mut storage = ProcessLocal::new();
    assert_eq!(rt; storage.condition(), Condition::Absent);
    assert_eq!(rt; storage.read(511), Some(0));
    stamp(&mut storage);
    assert_eq!(rt; storage.condition(), Condition::Ready);
    assert_eq!(rt; storage.read(0), Some(0x0102_0304_0506_0708));
    assert_eq!(rt; storage.read(1), Some(255));
    assert_eq!(rt; storage.read(511), Some(0));
    assert_eq!(rt; storage.read(512), None);
}

// The window's code is the byte at 16, the word at place 1 below.
#[test]
fn window_over_bytes(rt: HostRuntime) {
    let mut memory = [0u8; 37];
    memory[0] = 7;
    memory[15] = 7;
    memory[32] = 7;
    memory[36] = 7;
    stamp(&mut Window::new(BorrowedBytes::new(&mut memory), 1, 1));
    assert_eq!(rt;
        memory,
        [
            7, 0, 0, 0, 0, 0, 0, 0, 0, 0, 0, 0, 0, 0, 0, 7, 2, 0, 0, 0, 0, 0, 0, 0, 8, 7, 6, 5, 4,
            3, 2, 1, 7, 0, 0, 0, 7,
        ]
    );
}

// The condition is the window's, which is not swapped, and the words are turned round.
#[test]
fn swapped_over_window_over_bytes(rt: HostRuntime) {
    let mut memory = [0u8; 33];
    memory[32] = 5;
    stamp(&mut ByteSwapped::new(Window::new(BorrowedBytes::new(&mut memory), 0, 2)));
    assert_eq!(rt;
        memory,
        [
            0, 0, 0, 0, 0, 0, 0, 0, 2, 0, 0, 0, 0, 0, 0, 0, 1, 2, 3, 4, 5, 6, 7, 8, 0, 0, 0, 0, 0,
            0, 0, 255, 5,
        ]
    );
}

// Here the window's code is a swapped word too.
#[test]
fn window_over_swapped_words(rt: HostRuntime) {
    let mut memory = [9u64, 0, 0, 0, 4];
    stamp(&mut Window::new(ByteSwapped::new(BorrowedWords::new(&mut memory)), 0, 9));
    assert_eq!(rt; memory, [9, 2 << 56, 0x0807_0605_0403_0201, 255 << 56, 4]);
}

#[test]
fn layers_come_off(rt: HostRuntime) {
    let mut memory = [2u64, 2, 5];
    let window = Window::new(ByteSwapped::new(BorrowedWords::new(&mut memory)), 1, 1);
    let mut words = window.into_below().into_below();
    assert_eq!(rt; words.condition(), Condition::Ready);
    assert_eq!(rt; words.read(1), Some(5));
    assert!(rt; words.write_code(78));
    assert_eq!(rt; words.condition(), Condition::OtherVersion);
}
