ghost use Rattle.std.specs.Prelude.{◌≡◌, ◌≤◌, ◌||◌, if◌then◌else◌, Some, None, nat_lt};
ghost use Rattle.std.specs.Option.{option_map};
ghost use Rattle.connection_words.specs.Settings.{Limits, too_small, too_large, channels, completions};
ghost use Rattle.connection_words.specs.Places.{stride, channel_at, detail_at, needed};

use crate::{Channel, Settings};

/// Where the parts of a connection stand, for settings that lie in their limits.
#[derive(Clone, Copy, Debug, PartialEq, Eq)]
pub struct Layout {
    pub(crate) settings: Settings,
    ghost limits: { Limits settings },
}

impl Layout {
    /// None where a setting is 0 or above its limit.
    pub fn new(settings: Settings) -> Option<Layout>
        ensures { option_map (λ layout. layout.settings) result ≡ (if too_small settings || too_large settings then None else Some settings) }
    {
        if settings.is_too_small() || settings.is_too_large() {
            return None;
        }
        Some(Layout { settings })
    }

    pub fn settings(&self) -> Settings
        ensures { result ≡ self.now.settings }
    {
        self.settings
    }

    /// How many values can wait to be reclaimed on a channel.
    pub fn completions(&self) -> u64
        ensures { result ≡ completions self.now.settings }
    {
        let settings = self.settings;
        settings.buffer_size + settings.max_borrowed_samples_per_channel + 1
    }

    /// How many words a channel takes.
    pub fn stride(&self) -> u64
        ensures { result ≡ stride self.now.settings }
    {
        5 + self.settings.buffer_size + self.completions()
    }

    /// Where a channel begins; at the number of channels, where the channels end.
    pub(crate) fn channel_place(&self, index: u64) -> u64
        requires { index ≤ 64 }
        ensures place { result ≡ channel_at self.now.settings index }
        ensures small { result ≤ 197000 }
    {
        8 + index * self.stride()
    }

    /// Where the detail of a channel and a segment begins.
    pub(crate) fn detail_place(&self, index: u64, segment: u64) -> u64
        requires few { index ≤ 64 }
        requires low { segment ≤ 255 }
        ensures { result ≡ detail_at self.now.settings index segment }
    {
        let number = index * self.settings.number_of_segments + segment;
        self.channel_place(self.settings.number_of_channels)
            + number * (1 + self.settings.number_of_samples_per_segment)
    }

    /// How many words a connection needs: the details end it.
    pub fn words_needed(&self) -> u64
        ensures { result ≡ needed self.now.settings }
    {
        self.detail_place(self.settings.number_of_channels, 0)
    }

    pub fn channel(&self, index: u64) -> Option<Channel>
        ensures settings { option_map (λ channel. channel.layout.settings) result ≡ (if nat_lt index (channels self.now.settings) then Some self.now.settings else None) }
        ensures index { option_map (λ channel. channel.index) result ≡ (if nat_lt index (channels self.now.settings) then Some index else None) }
    {
        if index >= self.settings.number_of_channels {
            return None;
        }
        Some(Channel {
            layout: *self,
            index,
        })
    }
}
