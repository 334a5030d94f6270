ghost use Rattle.history.specs.Guarantee.{FreshCreated, GuaranteeHolds};
ghost use Rattle.history.specs.Example.{GuaranteeMet};

/// Creating both ports over an absent storage leaves a fresh connection.
pub fn ports_make_fresh()
    ensures { FreshCreated }
{}

/// What holds of a channel after every prefix of every history on a fresh connection.
pub fn guarantee_holds()
    ensures { GuaranteeHolds }
{}

/// Histories of two channels that have all that the guarantee asks for.
pub fn guarantee_is_met()
    ensures { GuaranteeMet }
{}
