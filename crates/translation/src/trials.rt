ghost use Rattle.std.specs.Prelude.{◌≡◌};
ghost use Rattle.address.specs.Code.{code_number};
ghost use Rattle.translation.specs.Trials.{code_trial, passes, subsystem_trial, trial_of};

use crate::causes::Cause;
use crate::meanings::Availability;
use crate::rules::Routing;
use crate::states::{CodeState, SubsystemState};
use address::PointCode;

// Whether messages can be brought to a code, or the cause why not. The own code is up.
pub fn code_trial<V: Availability>(
    availability: &V,
    own: PointCode,
    code: PointCode,
) -> Result<(), Cause>
    ensures { result ≡ passes (code_trial (V.codes availability.now) (code_number own) (code_number code)) }
{
    if code == own {
        return Ok(());
    }
    match availability.code_state(code) {
        CodeState::Up => Ok(()),
        CodeState::TransferDown => Err(Cause::TransferFailure),
        CodeState::SccpDown => Err(Cause::SccpFailure),
    }
}

// Whether a subsystem at a code takes messages, or the cause why not.
pub fn subsystem_trial<V: Availability>(
    availability: &V,
    code: PointCode,
    subsystem: Option<u8>,
) -> Result<(), Cause>
    ensures { result ≡ passes (subsystem_trial (V.subsystems availability.now) (code_number code) subsystem) }
{
    let number = match subsystem {
        None | Some(0) => return Err(Cause::NoTranslation),
        Some(number) => number,
    };
    match availability.subsystem_state(code, number) {
        SubsystemState::Working => Ok(()),
        SubsystemState::Failed => Err(Cause::SubsystemFailure),
        SubsystemState::Unequipped => Err(Cause::UnequippedUser),
    }
}

// Whether a message so routed can go to a code, or the first cause why not.
pub fn trial<V: Availability>(
    availability: &V,
    own: PointCode,
    routing: Routing,
    code: PointCode,
    subsystem: Option<u8>,
) -> Result<(), Cause>
    ensures { result ≡ passes (trial_of (V.codes availability.now) (V.subsystems availability.now) (code_number own) routing (code_number code) subsystem) }
{
    code_trial(availability, own, code)?;
    match routing {
        Routing::OnSubsystem => subsystem_trial(availability, code, subsystem),
        Routing::OnTitle if code == own => Err(Cause::NoTranslation),
        Routing::OnTitle => Ok(()),
    }
}
