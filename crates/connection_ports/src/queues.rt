ghost use Rattle.std.specs.Prelude.{◌≡◌, false, if◌then◌else◌, Some, None, nat_lt};
ghost use Rattle.std.specs.Option.{option_map};
ghost use Rattle.connection_words.specs.Settings.{channels};
ghost use Rattle.connection_words.specs.Queues.{channel_sound};
ghost use Rattle.connection_words.specs.Soundness.{settings_of};
ghost use Rattle.connection_ports.specs.Creation.{queues_sound, whole};

use connection_words::{Layout, layout_of};
use dynamic_storage::DynamicStorage;

/// Whether there is such a channel, and both its queues are sound.
fn is_channel_sound<S: DynamicStorage>(storage: &S, layout: &Layout, index: u64) -> bool
    ensures { result ≡ (if nat_lt index (channels layout.now.settings) then channel_sound (S.DynamicStorage.words storage.now) layout.now.settings index else false) }
{
    let channel = layout.channel(index);
    channel.is_some_and(|channel| channel.is_sound(storage))
}

/// Whether all queues of a connection are sound.
fn are_queues_sound<S: DynamicStorage>(storage: &S, layout: &Layout) -> bool
    ensures { result ≡ queues_sound (S.DynamicStorage.words storage.now) layout.now.settings (channels layout.now.settings) }
{
    let channels = layout.settings().number_of_channels;
    (0..channels).all(|index| is_channel_sound(storage, layout, index))
}

/// The layout that the words state, if they are a connection that is sound with all its queues.
pub(crate) fn whole_layout_of<S: DynamicStorage>(storage: &S) -> Option<Layout>
    ensures { option_map (λ layout. layout.settings) result ≡ (if whole (S.DynamicStorage.condition storage.now) (S.DynamicStorage.words storage.now) then Some (settings_of (S.DynamicStorage.words storage.now)) else None) }
{
    let layout = layout_of(storage)?;
    are_queues_sound(storage, &layout).then_some(layout)
}
