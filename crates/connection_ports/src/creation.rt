ghost use Rattle.std.specs.Prelude.{◌≡◌, ℕ, ◌+◌, cond, length, replicate, IfOk, Some, None, slice_index};
ghost use Rattle.dynamic_storage.specs.Changes.{WordsBecome};
ghost use Rattle.dynamic_storage.specs.declared.condition.Condition.TheVariants.{Absent, Ready};
ghost use Rattle.connection_words.specs.PortStates.{state_word};
ghost use Rattle.connection_ports.specs.Numbers.{creation_number, refused_by, fault_of, bit_of};
ghost use Rattle.connection_ports.specs.Tokens.{Open};
ghost use Rattle.connection_ports.specs.Fresh.{fresh_words};
ghost use Rattle.connection_ports.specs.Creation.{entry_of, mismatch, join_refusal, joined, room_refusal, unless, Creates};
ghost use Rattle.connection_ports.specs.declared.port.Port.TheVariants as port;

use crate::fresh::Fresh;
use crate::port::Entry;
use crate::queues::whole_layout_of;
use crate::{
    BorrowCounters, Builder, DynamicStorageOpenError, Port, PortToken, ZeroCopyCreationError,
};
use connection_words::{Layout, PortState, Settings, put, word};
use dynamic_storage::{Condition, DynamicStorage, Stage};

/// How a storage is entered, or its fault.
fn entry_of(condition: Condition) -> Result<Entry, DynamicStorageOpenError>
    ensures { result ≡ entry_of condition }
{
    match condition {
        Condition::Absent => Ok(Entry::SetUp),
        Condition::Forming => Err(DynamicStorageOpenError::InitializationNotYetFinalized),
        Condition::Ready => Ok(Entry::Join),
        Condition::Broken => Err(DynamicStorageOpenError::InternalError),
        Condition::OtherVersion => Err(DynamicStorageOpenError::VersionMismatch),
    }
}

// No refusal of the private functions below carries a fault. An error type that says so would be a second one beside the
// Rust's, with eleven of its cases.

/// Refuses settings that differ from those of the connection.
fn compare(asked: Settings, found: Settings) -> Result<(), ZeroCopyCreationError>
    ensures answer { refused_by creation_number result ≡ mismatch asked found }
    ensures fault { fault_of result ≡ None }
{
    if asked.buffer_size != found.buffer_size {
        return Err(ZeroCopyCreationError::IncompatibleBufferSize);
    }
    if asked.max_borrowed_samples_per_channel != found.max_borrowed_samples_per_channel {
        return Err(ZeroCopyCreationError::IncompatibleMaxBorrowedSamplesPerChannelSetting);
    }
    if asked.enable_safe_overflow != found.enable_safe_overflow {
        return Err(ZeroCopyCreationError::IncompatibleOverflowSetting);
    }
    if asked.number_of_samples_per_segment != found.number_of_samples_per_segment {
        return Err(ZeroCopyCreationError::IncompatibleNumberOfSamples);
    }
    if asked.number_of_segments != found.number_of_segments {
        return Err(ZeroCopyCreationError::IncompatibleNumberOfSegments);
    }
    if asked.number_of_channels != found.number_of_channels {
        return Err(ZeroCopyCreationError::IncompatibleNumberOfChannels);
    }
    Ok(())
}

/// The port state of the connection in a storage with a port more, or why the port cannot join it.
fn check_join<S: DynamicStorage>(
    storage: &S,
    port: Port,
    settings: Settings,
) -> Result<PortState, ZeroCopyCreationError>
    ensures answer { refused_by creation_number result ≡ join_refusal port settings (S.DynamicStorage.condition storage.now) (S.DynamicStorage.words storage.now) }
    ensures fault { fault_of result ≡ None }
    ensures joined { IfOk result (λ joined. state_word joined ≡ slice_index (S.DynamicStorage.words storage.now) 0 + bit_of port) }
{
    let Some(layout) = whole_layout_of(storage) else {
        return Err(ZeroCopyCreationError::ConnectionMaybeCorrupted);
    };
    let state = PortState::try_from(word(storage, 0))?;
    let joined = port.joins(state)?;
    compare(settings, layout.settings())?;
    Ok(joined)
}

/// Joins the connection in a storage.
fn join<S: DynamicStorage>(
    storage: &mut S,
    port: Port,
    settings: Settings,
) -> Result<PortToken, ZeroCopyCreationError>
    ensures answer { refused_by creation_number result ≡ join_refusal port settings (S.DynamicStorage.condition storage.old) (S.DynamicStorage.words storage.old) }
    ensures fault { fault_of result ≡ None }
    ensures storage { WordsBecome S.DynamicStorage storage.old storage.new (unless (join_refusal port settings (S.DynamicStorage.condition storage.old) (S.DynamicStorage.words storage.old)) (S.DynamicStorage.words storage.old) (joined port (S.DynamicStorage.words storage.old))) }
    ensures token { IfOk result (Open port) }
{
    let joined = check_join(storage, port, settings)?;
    put(storage, 0, u64::from(joined));
    Ok(PortToken { port, spent: false })
}

/// Sets up the words of a connection in an absent storage, if it has room for them.
fn set_up<S: DynamicStorage>(
    storage: &mut S,
    fresh: &Fresh,
) -> Result<PortToken, ZeroCopyCreationError>
    requires { S.DynamicStorage.condition storage.old ≡ Absent }
    ensures answer { refused_by creation_number result ≡ room_refusal fresh.now.layout.settings (S.DynamicStorage.words storage.old) }
    ensures fault { fault_of result ≡ None }
    ensures token { IfOk result (Open fresh.now.port) }
    ensures words { S.DynamicStorage.words storage.new ≡ unless (room_refusal fresh.now.layout.settings (S.DynamicStorage.words storage.old)) (S.DynamicStorage.words storage.old) (fresh_words fresh.now.layout.settings fresh.now.state.0 (bit_of fresh.now.port) (S.DynamicStorage.words storage.old)) }
    ensures condition { S.DynamicStorage.condition storage.new ≡ unless (room_refusal fresh.now.layout.settings (S.DynamicStorage.words storage.old)) Absent Ready }
    ensures outside { S.DynamicStorage.outside storage.new ≡ S.DynamicStorage.outside storage.old }
{
    if storage.len() < fresh.layout.words_needed() {
        return Err(ZeroCopyCreationError::RoomTooSmall);
    }
    let _ = storage.set_condition(Stage::Forming);
    fresh.write_to(storage);
    let _ = storage.set_condition(Stage::Ready);
    Ok(PortToken {
        port: fresh.port,
        spent: false,
    })
}

impl Builder {
    /// Creates a port of a connection, over an absent storage or beside the other port.
    pub fn create<S: DynamicStorage>(
        &self,
        storage: &mut S,
        port: Port,
    ) -> Result<PortToken, ZeroCopyCreationError>
        ensures creation { Creates S.DynamicStorage port self.now.settings self.now.initial_channel_state.0 storage.old storage.new result }
        ensures token { IfOk result (Open port) }
    {
        let Some(layout) = Layout::new(self.settings.raised()) else {
            return Err(ZeroCopyCreationError::SettingTooLarge);
        };
        match entry_of(storage.condition())? {
            Entry::SetUp => {
                let fresh = Fresh {
                    layout,
                    state: self.initial_channel_state,
                    port,
                };
                set_up(storage, &fresh)
            }
            Entry::Join => join(storage, port, layout.settings()),
        }
    }

    /// Creates the sender of a connection, over an absent storage or beside a receiver.
    pub fn create_sender<S: DynamicStorage>(
        &self,
        storage: &mut S,
    ) -> Result<PortToken, ZeroCopyCreationError>
        ensures creation { Creates S.DynamicStorage port.Sender self.now.settings self.now.initial_channel_state.0 storage.old storage.new result }
        ensures token { IfOk result (Open port.Sender) }
    {
        self.create(storage, Port::Sender)
    }

    /// Creates the receiver of a connection, over an absent storage or beside a sender, with nothing borrowed.
    pub fn create_receiver<S: DynamicStorage>(
        &self,
        storage: &mut S,
    ) -> Result<(PortToken, BorrowCounters), ZeroCopyCreationError>
        ensures creation { Creates S.DynamicStorage port.Receiver self.now.settings self.now.initial_channel_state.0 storage.old storage.new result }
        ensures token { IfOk result (λ made. Open port.Receiver made.0) }
        ensures counters { IfOk result (λ made. made.1.counts ≡ replicate 64 0) }
    {
        let token = self.create(storage, Port::Receiver)?;
        Ok((token, BorrowCounters::new()))
    }
}
