ghost use Rattle.std.specs.Prelude.{◌≡◌, if◌then◌else◌, Some, None};
ghost use Rattle.std.specs.Option.{option_map};
ghost use Rattle.connection_words.specs.Soundness.{settings_of, sound};

use crate::{Layout, PortState, Settings, word};
use dynamic_storage::{Condition, DynamicStorage};

/// The settings that the words state.
fn settings_of<S: DynamicStorage>(storage: &S) -> Settings
    ensures { result ≡ settings_of (S.DynamicStorage.words storage.now) }
{
    Settings {
        buffer_size: word(storage, 1),
        max_borrowed_samples_per_channel: word(storage, 2),
        number_of_samples_per_segment: word(storage, 3),
        number_of_segments: word(storage, 4),
        number_of_channels: word(storage, 5),
        enable_safe_overflow: word(storage, 6) == 1,
    }
}

/// The layout that the words state, if they are a connection that is sound but for its queues.
pub fn layout_of<S: DynamicStorage>(storage: &S) -> Option<Layout>
    ensures { option_map (λ layout. layout.settings) result ≡ (if sound (S.DynamicStorage.condition storage.now) (S.DynamicStorage.words storage.now) then Some (settings_of (S.DynamicStorage.words storage.now)) else None) }
{
    let Condition::Ready = storage.condition() else {
        return None;
    };
    let Ok(_) = PortState::try_from(word(storage, 0)) else {
        return None;
    };
    let layout = Layout::new(settings_of(storage))?;
    if word(storage, 6) > 1 || word(storage, 7) != layout.completions() {
        return None;
    }
    if layout.words_needed() > storage.len() {
        return None;
    }
    Some(layout)
}
