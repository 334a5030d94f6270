ghost use Rattle.std.specs.Prelude.{◌≡◌, ℕ, [], length, replicate};
ghost use Rattle.dynamic_storage.specs.Meaning.{asked};
ghost use Rattle.dynamic_storage.specs.declared.condition.Stage.TheVariants.{Absent};

use dynamic_storage::{Condition, DynamicStorage, Stage};

/// 512 words of its own, for ports within one process.
// An array: the storage takes no heap.
#[derive(Drop)]
pub struct ProcessLocal {
    words: [u64; 512],
    stage: Stage,
    ghost full: { length words ≡ 512 },
}

impl ProcessLocal {
    pub fn new() -> ProcessLocal
        ensures words { result.words ≡ replicate 512 0 }
        ensures stage { result.stage ≡ Absent }
    {
        ProcessLocal {
            words: [0; 512],
            stage: Stage::Absent,
        }
    }
}

impl DynamicStorage for ProcessLocal {
    ghost condition = { λ s. asked s.stage };

    ghost words = { λ s. s.words };

    ghost outside = { λ _. [] };

    fn condition(&self) -> Condition {
        self.stage.into()
    }

    fn len(&self) -> u64 {
        512
    }

    fn read(&self, place: u64) -> Option<u64> {
        self.words.get(place as usize).copied()
    }

    fn write(&mut self, place: u64, word: u64) -> bool {
        // After `get_mut` nothing would be proved of the array.
        if place < 512 {
            self.words[place as usize] = word;
            true
        } else {
            false
        }
    }

    fn set_condition(&mut self, to: Stage) -> bool {
        self.stage = to;
        true
    }
}
