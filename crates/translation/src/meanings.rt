ghost use Rattle.std.specs.Prelude.{◌≡◌, ℕ, Bool, List, Option as Maybe};
ghost use Rattle.address.specs.Code.{code_number};
ghost use Rattle.translation.specs.declared.rules.Selector.{Selector as Titles};
ghost use Rattle.translation.specs.declared.states.CodeState.{CodeState as StateOfCode};
ghost use Rattle.translation.specs.declared.states.SubsystemState.{SubsystemState as StateOfSubsystem};
ghost use Rattle.translation.specs.Rules.{RuleView, rule_found};

use crate::rules::{Rule, Selector};
use crate::states::{CodeState, SubsystemState};
use address::PointCode;

// What turns titles into destinations. It means which selectors it knows, and which rule fits
// the digits of a title; asked again, it answers the same.
pub trait Translator {
    ghost known: { Self → Titles → Bool };

    ghost fit: { Self → Titles → List ℕ → Maybe RuleView };

    fn knows(&self, selector: Selector) -> bool
        ensures { result ≡ known self.now selector };

    // Stays: selector and digits are told apart, since a selector is asked for by itself too.
    fn rule(&self, selector: Selector, digits: &[u8]) -> Option<Rule>
        ensures { rule_found result ≡ fit self.now selector digits.now };
}

// What is known of the network. It means the state of each point code, and of each subsystem
// at it; asked again, it answers the same.
pub trait Availability {
    ghost codes: { Self → ℕ → StateOfCode };

    ghost subsystems: { Self → ℕ → ℕ → StateOfSubsystem };

    fn code_state(&self, code: PointCode) -> CodeState
        ensures { result ≡ codes self.now (code_number code) };

    fn subsystem_state(&self, code: PointCode, subsystem: u8) -> SubsystemState
        ensures { result ≡ subsystems self.now (code_number code) subsystem };
}
