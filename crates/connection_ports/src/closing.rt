ghost use Rattle.std.specs.Prelude.{◌≡◌, IfOk, if◌then◌else◌, Some, None, ◌==◌};
ghost use Rattle.dynamic_storage.specs.Meaning.{after_asking};
ghost use Rattle.dynamic_storage.specs.declared.condition.Stage.TheVariants as stage;
ghost use Rattle.connection_words.specs.PortStates.{state_word};
ghost use Rattle.connection_words.specs.Soundness.{sound};
ghost use Rattle.connection_ports.specs.Numbers.{refused_by, close_number, bit_of};
ghost use Rattle.connection_ports.specs.Closing.{state_left, closed_words, closed_condition};
ghost use Rattle.connection_ports.specs.declared.error.PortCloseError.TheVariants as closing;

use crate::{PortCloseError, PortToken};
use connection_words::{PortState, UnknownPortState, layout_of, put, word};
use dynamic_storage::{DynamicStorage, Stage};

impl From<UnknownPortState> for PortCloseError {
    ghost from_gives = { λ _ error. error ≡ closing.Unsound };

    fn from(_word: UnknownPortState) -> PortCloseError {
        PortCloseError::Unsound
    }
}

/// Makes a storage absent whose connection is marked for destruction.
fn settle<S: DynamicStorage>(storage: &mut S, left: PortState)
    ensures words { S.DynamicStorage.words storage.new ≡ S.DynamicStorage.words storage.old }
    ensures condition { S.DynamicStorage.condition storage.new ≡ (if state_word left == 128 then after_asking (S.DynamicStorage.condition storage.old) stage.Absent else S.DynamicStorage.condition storage.old) }
    ensures outside { S.DynamicStorage.outside storage.new ≡ S.DynamicStorage.outside storage.old }
{
    if let PortState::MarkedForDestruction = left {
        let _ = storage.set_condition(Stage::Absent);
    }
}

/// Closes a port and answers the port state that is left. The token is spent, also where this is refused.
pub fn close<S: DynamicStorage>(
    storage: &mut S,
    token: PortToken,
) -> Result<PortState, PortCloseError>
    ensures answer { refused_by close_number result ≡ (if sound (S.DynamicStorage.condition storage.old) (S.DynamicStorage.words storage.old) then None else Some 50) }
    ensures state { IfOk result (λ state. state_word state ≡ state_left (bit_of token.port) (S.DynamicStorage.words storage.old)) }
    ensures words { S.DynamicStorage.words storage.new ≡ closed_words (bit_of token.port) (S.DynamicStorage.condition storage.old) (S.DynamicStorage.words storage.old) }
    ensures condition { S.DynamicStorage.condition storage.new ≡ closed_condition (bit_of token.port) (S.DynamicStorage.condition storage.old) (S.DynamicStorage.words storage.old) }
    ensures outside { S.DynamicStorage.outside storage.new ≡ S.DynamicStorage.outside storage.old }
{
    let mut token = token;
    token.spent = true;
    let Some(_) = layout_of(storage) else {
        return Err(PortCloseError::Unsound);
    };
    let state = PortState::try_from(word(storage, 0))?;
    let left = token.port.leaves(state);
    put(storage, 0, u64::from(left));
    settle(storage, left);
    Ok(left)
}
