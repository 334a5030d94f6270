ghost use Rattle.std.specs.Prelude.{◌≡◌};
ghost use Rattle.connection_words.specs.Settings.{raised, too_large, too_small};

use crate::Settings;

const MAX_BUFFER_SIZE: u64 = 1024;

const MAX_BORROWED: u64 = 1024;

const MAX_SAMPLES: u64 = 65536;

const MAX_SEGMENTS: u64 = 255;

const MAX_CHANNELS: u64 = 64;

impl Settings {
    /// These settings, with 1 in place of each 0.
    pub fn raised(self) -> Settings
        ensures { result ≡ raised self }
    {
        Settings {
            buffer_size: self.buffer_size.max(1),
            max_borrowed_samples_per_channel: self.max_borrowed_samples_per_channel.max(1),
            number_of_samples_per_segment: self.number_of_samples_per_segment.max(1),
            number_of_segments: self.number_of_segments.max(1),
            number_of_channels: self.number_of_channels.max(1),
            enable_safe_overflow: self.enable_safe_overflow,
        }
    }

    /// Whether a setting is above its limit.
    pub fn is_too_large(self) -> bool
        ensures { result ≡ too_large self }
    {
        self.buffer_size > MAX_BUFFER_SIZE
            || self.max_borrowed_samples_per_channel > MAX_BORROWED
            || self.number_of_samples_per_segment > MAX_SAMPLES
            || self.number_of_segments > MAX_SEGMENTS
            || self.number_of_channels > MAX_CHANNELS
    }

    /// Whether a setting is 0.
    pub(crate) fn is_too_small(self) -> bool
        ensures { result ≡ too_small self }
    {
        self.buffer_size == 0
            || self.max_borrowed_samples_per_channel == 0
            || self.number_of_samples_per_segment == 0
            || self.number_of_segments == 0
            || self.number_of_channels == 0
    }
}
