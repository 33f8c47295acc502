ghost use Rattle.std.specs.Prelude.{◌≡◌};
ghost use Rattle.translation.specs.declared.states.SubsystemState.TheVariants.{Working as AlwaysWorking};
ghost use Rattle.availability.specs.States.{code_mapped, state_numbered};

use address::PointCode;
use translation::{Availability, CodeState, SubsystemState};

// What is known of the network by a map in lent octets: two bits a code, four codes an octet,
// from code 0 and from the low bits on. 0 is up, 1 transfer down, 2 and 3 SCCP down. Codes
// beyond the octets are transfer down; every subsystem is up.
#[derive(Clone, Copy)]
pub struct StateMap<'a> {
    octets: &'a [u8],
}

// What two bits say.
// Stays: states are of another crate, on which no From can stand here, and every number has a state.
fn state_of(bits: u8) -> CodeState
    ensures { result ≡ state_numbered bits }
{
    match bits {
        0 => CodeState::Up,
        1 => CodeState::TransferDown,
        _ => CodeState::SccpDown,
    }
}

impl<'a> StateMap<'a> {
    pub fn new(octets: &'a [u8]) -> StateMap<'a>
        ensures { result.octets.now ≡ octets.now }
    {
        StateMap { octets }
    }
}

impl Availability for StateMap<'_> {
    ghost codes = { λ m c. code_mapped c m.octets.now };

    ghost subsystems = { λ _ _ _. AlwaysWorking };

    #[tactic(auto, using(crate::proofs::Powers::two_bits))]
    fn code_state(&self, code: PointCode) -> CodeState {
        let number = code.number();
        let Some(&octet) = self.octets.get(usize::from(number / 4)) else {
            return CodeState::TransferDown;
        };
        state_of((octet >> (2 * (number % 4))) % 4)
    }

    fn subsystem_state(&self, _code: PointCode, _subsystem: u8) -> SubsystemState {
        SubsystemState::Working
    }
}
