/// The settings of a connection, as a builder asks for them and as the words state them.
#[derive(Clone, Copy, Debug, PartialEq, Eq)]
pub struct Settings {
    pub buffer_size: u64,
    pub max_borrowed_samples_per_channel: u64,
    pub number_of_samples_per_segment: u64,
    pub number_of_segments: u64,
    pub number_of_channels: u64,
    /// A setting of the Rust, by its name there.
    pub enable_safe_overflow: bool,
}
