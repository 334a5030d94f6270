ghost use Rattle.std.specs.Prelude.{◌≡◌};
ghost use Rattle.history_run.specs.declared.run.RunError.TheVariants as run;

use crate::RunError;
use connection_ports::ZeroCopyCreationError;
use std::alloc::AllocError;

impl From<AllocError> for RunError {
    ghost from_gives = { λ _ error. error ≡ run.OutOfMemory };

    fn from(_refusal: AllocError) -> RunError {
        RunError::OutOfMemory
    }
}

impl From<ZeroCopyCreationError> for RunError {
    ghost from_gives = { λ refusal error. error ≡ run.Creation refusal };

    fn from(refusal: ZeroCopyCreationError) -> RunError {
        RunError::Creation(refusal)
    }
}
