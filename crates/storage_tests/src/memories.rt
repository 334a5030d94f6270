ghost use Rattle.std.specs.Prelude.{◌≡◌, [], length};

use crate::stamping::stamp;
use dynamic_storage::{Condition, DynamicStorage, Stage};
use storage_backings::{Borrowed, WordMemory};

// Memory that is no slice and that nobody lends.
#[derive(Drop)]
struct ThreeWords {
    words: [u64; 3],
    ghost full: { length words ≡ 3 },
}

impl WordMemory for ThreeWords {
    ghost all_words = { λ m. m.words };

    ghost rest = { λ _. [] };

    fn count(&self) -> usize {
        3
    }

    fn load(&self, index: usize) -> Option<u64> {
        self.words.get(index).copied()
    }

    fn store(&mut self, index: usize, word: u64) -> bool {
        if index < 3 {
            self.words[index] = word;
            true
        } else {
            false
        }
    }
}

#[test]
fn memory_of_its_own(rt: HostRuntime) {
    let mut storage = Borrowed::new(ThreeWords { words: [0, 5, 6] });
    assert_eq!(rt; storage.condition(), Condition::Absent);
    assert_eq!(rt; storage.len(), 2);
    assert!(rt; storage.set_condition(Stage::Ready));
    assert_eq!(rt; storage.condition(), Condition::Ready);
    assert!(rt; storage.write(1, 7));
    assert!(rt; !storage.write(2, 8));
    assert_eq!(rt; storage.read(0), Some(5));
    assert_eq!(rt; storage.read(1), Some(7));
    assert_eq!(rt; storage.read(2), None);
    assert_eq!(rt; storage.read(u64::MAX), None);
    assert!(rt; storage.write_code(4));
    assert!(rt; !storage.set_condition(Stage::Absent));
    assert_eq!(rt; storage.condition(), Condition::Broken);
    assert_eq!(rt; storage.read(0), Some(5));
}

#[test]
fn lent_words(rt: HostRuntime) {
    let mut memory = [0u64, 5, 6, 7];
    let mut storage = Borrowed::new(&mut memory[..]);
    stamp(&mut storage);
    assert_eq!(rt; storage.condition(), Condition::Ready);
    assert!(rt; storage.write_code(u64::MAX));
    storage.hand_back();
    assert_eq!(rt; memory, [u64::MAX, 0x0102_0304_0506_0708, 255, 7]);
}

// Two words and an odd byte.
#[test]
fn lent_bytes(rt: HostRuntime) {
    let mut memory = [0u8, 0, 0, 0, 0, 0, 0, 0, 1, 1, 1, 1, 1, 1, 1, 1, 9];
    let mut storage = Borrowed::new(&mut memory[..]);
    assert_eq!(rt; storage.len(), 1);
    assert!(rt; storage.write(0, 0x0203));
    assert!(rt; !storage.write(1, 4));
    assert!(rt; storage.write_code(0x0105));
    storage.hand_back();
    assert_eq!(rt; memory, [5, 1, 0, 0, 0, 0, 0, 0, 3, 2, 0, 0, 0, 0, 0, 0, 9]);
}

#[test]
fn loans_as_memory(rt: HostRuntime) {
    let mut words = [5u64, 6];
    let mut memory = &mut words[..];
    assert_eq!(rt; WordMemory::count(&memory), 2);
    assert_eq!(rt; WordMemory::load(&memory, 1), Some(6));
    assert_eq!(rt; WordMemory::load(&memory, 2), None);
    assert!(rt; WordMemory::store(&mut memory, 0, 7));
    assert!(rt; !WordMemory::store(&mut memory, 2, 8));
    assert_eq!(rt; words, [7, 6]);
    let mut bytes = [1u8, 2, 0, 0, 0, 0, 0, 0, 9];
    let mut memory = &mut bytes[..];
    assert_eq!(rt; WordMemory::count(&memory), 1);
    assert_eq!(rt; WordMemory::load(&memory, 0), Some(0x0201));
    assert!(rt; WordMemory::store(&mut memory, 0, 3));
    assert!(rt; !WordMemory::store(&mut memory, 1, 4));
    assert_eq!(rt; bytes, [3, 0, 0, 0, 0, 0, 0, 0, 9]);
}
