ghost use Rattle.std.specs.Prelude.{◌≡◌};
ghost use Rattle.availability.specs.States.{code_answer, subsystem_answer, first_told, code_told, subsystem_told};

use address::PointCode;
use translation::{Availability, CodeState, SubsystemState};

// What is known of one code, or of one subsystem at a code. The code may be any number; an
// entry with a number that is no point code answers nothing.
#[derive(Clone, Copy)]
pub enum Exception {
    Code {
        code: u16,
        state: CodeState,
    },
    Subsystem {
        code: u16,
        subsystem: u8,
        state: SubsystemState,
    },
}

// What is known of the network by a lent list of exceptions: to each question the first entry
// that answers it holds, and where none does all is up. An entry of a code says nothing of
// the subsystems there.
#[derive(Clone, Copy)]
pub struct ExceptionList<'a> {
    entries: &'a [Exception],
}

impl Exception {
    // What the entry says of a code, if anything.
    fn of_code(&self, asked: u16) -> Option<CodeState>
        ensures { result ≡ code_answer asked self.now }
    {
        match *self {
            Exception::Code { code, state } if code == asked => Some(state),
            _ => None,
        }
    }

    // What the entry says of a subsystem at a code, if anything.
    fn of_subsystem(&self, asked: u16, number: u8) -> Option<SubsystemState>
        ensures { result ≡ subsystem_answer asked number self.now }
    {
        match *self {
            Exception::Subsystem {
                code,
                subsystem,
                state,
            } if code == asked && subsystem == number => Some(state),
            _ => None,
        }
    }
}

impl<'a> ExceptionList<'a> {
    pub fn new(entries: &'a [Exception]) -> ExceptionList<'a>
        ensures { result.entries.now ≡ entries.now }
    {
        ExceptionList { entries }
    }
}

impl Availability for ExceptionList<'_> {
    ghost codes = { λ x c. code_told c x.entries.now };

    ghost subsystems = { λ x c s. subsystem_told c s x.entries.now };

    fn code_state(&self, code: PointCode) -> CodeState {
        self.entries
            .iter()
            .find_map(|entry| entry.of_code(code.number()))
            .unwrap_or(CodeState::Up)
    }

    fn subsystem_state(&self, code: PointCode, subsystem: u8) -> SubsystemState {
        self.entries
            .iter()
            .find_map(|entry| entry.of_subsystem(code.number(), subsystem))
            .unwrap_or(SubsystemState::Working)
    }
}
