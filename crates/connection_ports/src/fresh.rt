ghost use Rattle.std.specs.Prelude.{◌≡◌, ℕ, ◌≤◌, length};
ghost use Rattle.dynamic_storage.specs.Changes.{WordsBecome};
ghost use Rattle.connection_words.specs.Places.{needed};
ghost use Rattle.connection_ports.specs.Numbers.{bit_of};
ghost use Rattle.connection_ports.specs.Fresh.{overflow_word, body_word, fresh_word, fresh_words};

use crate::{ChannelState, Port};
use connection_words::{Layout, PortState, put};
use dynamic_storage::DynamicStorage;

/// A connection that is created: its layout, the state of its channels, and the port that creates it.
#[derive(Clone, Copy)]
pub(crate) struct Fresh {
    pub(crate) layout: Layout,
    pub(crate) state: ChannelState,
    pub(crate) port: Port,
}

impl Fresh {
    /// The word behind the header: the state at the first place of each channel.
    fn body_word(&self, place: u64) -> u64
        requires { 8 ≤ place }
        ensures { result ≡ body_word self.now.layout.settings self.now.state.0 place }
    {
        let settings = self.layout.settings();
        let stride = self.layout.stride();
        if place < 8 + settings.number_of_channels * stride && (place - 8) % stride == 0 {
            self.state.value()
        } else {
            0
        }
    }

    /// The word at a place.
    fn word(&self, place: u64) -> u64
        ensures { result ≡ fresh_word self.now.layout.settings self.now.state.0 (bit_of self.now.port) place }
    {
        let settings = self.layout.settings();
        match place {
            0 => u64::from(PortState::from(self.port)),
            1 => settings.buffer_size,
            2 => settings.max_borrowed_samples_per_channel,
            3 => settings.number_of_samples_per_segment,
            4 => settings.number_of_segments,
            5 => settings.number_of_channels,
            6 => u64::from(settings.enable_safe_overflow),
            7 => self.layout.completions(),
            _ => self.body_word(place),
        }
    }

    /// Writes the words.
    pub(crate) fn write_to<S: DynamicStorage>(&self, storage: &mut S)
        requires { needed self.now.layout.settings ≤ length (S.DynamicStorage.words storage.old) }
        ensures { WordsBecome S.DynamicStorage storage.old storage.new (fresh_words self.now.layout.settings self.now.state.0 (bit_of self.now.port) (S.DynamicStorage.words storage.old)) }
    {
        // Over numbers: a storage is no slice.
        for place in 0..self.layout.words_needed() {
            put(storage, place, self.word(place));
        }
    }
}
