ghost use Rattle.std.specs.Prelude.{◌≡◌, true, IfOk};
ghost use Rattle.connection_words.specs.Soundness.{settings_of};
ghost use Rattle.connection_words.specs.Queues.{channel_sound};
ghost use Rattle.connection_ports.specs.Numbers.{refused_by};
ghost use Rattle.zero_copy_connection.specs.Numbers.{channel_number};
ghost use Rattle.zero_copy_connection.specs.Checks.{channel_refusal};

use crate::ChannelError;
use connection_words::{Channel, layout_of};
use dynamic_storage::DynamicStorage;

/// The channel that a call names, if the words are a connection with such a channel and sound queues.
pub fn open_channel<S: DynamicStorage>(storage: &S, channel: u64) -> Result<Channel, ChannelError>
    ensures answer { refused_by channel_number result ≡ channel_refusal (S.DynamicStorage.condition storage.now) (S.DynamicStorage.words storage.now) channel }
    ensures settings { IfOk result (λ opened. opened.layout.settings ≡ settings_of (S.DynamicStorage.words storage.now)) }
    ensures index { IfOk result (λ opened. opened.index ≡ channel) }
    ensures sound { IfOk result (λ opened. channel_sound (S.DynamicStorage.words storage.now) opened.layout.settings opened.index ≡ true) }
{
    let Some(layout) = layout_of(storage) else {
        return Err(ChannelError::Unsound);
    };
    let Some(opened) = layout.channel(channel) else {
        return Err(ChannelError::BadChannel);
    };
    if !opened.is_sound(storage) {
        return Err(ChannelError::Unsound);
    }
    Ok(opened)
}
