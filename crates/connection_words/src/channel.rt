ghost use Rattle.std.specs.Prelude.{◌≡◌, ◌<◌, ◌&&◌, if◌then◌else◌, Some, None, nat_lt};
ghost use Rattle.connection_words.specs.Settings.{channels, segments, samples};
ghost use Rattle.connection_words.specs.Places.{state_at, submission_of, completion_of, size_at, mark_at};
ghost use Rattle.connection_words.specs.Queues.{channel_sound};

use crate::{Layout, Queue, Ring, Settings};
use dynamic_storage::DynamicStorage;

/// One of the channels of a connection.
#[derive(Clone, Copy, Debug, PartialEq, Eq)]
pub struct Channel {
    pub(crate) layout: Layout,
    pub(crate) index: u64,
    ghost inside: { index < channels layout.settings },
}

impl Channel {
    pub fn settings(&self) -> Settings
        ensures { result ≡ self.now.layout.settings }
    {
        self.layout.settings
    }

    pub fn index(&self) -> u64
        ensures { result ≡ self.now.index }
    {
        self.index
    }

    /// Where the state of the channel stands.
    pub fn state_place(&self) -> u64
        ensures { result ≡ state_at self.now.layout.settings self.now.index }
    {
        self.layout.channel_place(self.index)
    }

    /// The values that wait to be received.
    pub fn submission(&self) -> Queue
        ensures { result.ring ≡ submission_of self.now.layout.settings self.now.index }
    {
        let first = self.layout.channel_place(self.index);
        let ring = Ring {
            heads: first + 1,
            slots: first + 5,
            capacity: self.layout.settings.buffer_size,
        };
        Queue { ring }
    }

    /// The values that wait to be reclaimed.
    pub fn completion(&self) -> Queue
        ensures { result.ring ≡ completion_of self.now.layout.settings self.now.index }
    {
        let first = self.layout.channel_place(self.index);
        let ring = Ring {
            heads: first + 3,
            slots: first + 5 + self.layout.settings.buffer_size,
            capacity: self.layout.completions(),
        };
        Queue { ring }
    }

    /// Whether both queues of the channel are sound.
    pub fn is_sound<S: DynamicStorage>(&self, storage: &S) -> bool
        ensures { result ≡ channel_sound (S.DynamicStorage.words storage.now) self.now.layout.settings self.now.index }
    {
        self.submission().is_sound(storage) && self.completion().is_sound(storage)
    }

    /// Where the size of a segment's samples stands, if there is such a segment.
    pub fn size_place(&self, segment: u8) -> Option<u64>
        ensures { result ≡ (if nat_lt segment (segments self.now.layout.settings) then Some (size_at self.now.layout.settings self.now.index segment) else None) }
    {
        let segment = u64::from(segment);
        if segment >= self.layout.settings.number_of_segments {
            return None;
        }
        Some(self.layout.detail_place(self.index, segment))
    }

    /// Where the mark of a sample stands, if there is such a sample.
    pub fn mark_place(&self, segment: u8, index: u64) -> Option<u64>
        ensures { result ≡ (if nat_lt segment (segments self.now.layout.settings) && nat_lt index (samples self.now.layout.settings) then Some (mark_at self.now.layout.settings self.now.index segment index) else None) }
    {
        let first = self.size_place(segment)?;
        if index >= self.layout.settings.number_of_samples_per_segment {
            return None;
        }
        Some(first + 1 + index)
    }
}
