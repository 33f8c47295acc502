ghost use Rattle.std.specs.Prelude.{◌≡◌};
ghost use Rattle.address.specs.Code.{code_number};
ghost use Rattle.translation.specs.Translating.{translation_given};
ghost use Rattle.translation.specs.Trials.{code_trial, subsystem_trial, trial_of, passes};
ghost use Rattle.routing.specs.Meanings.{TablesView, tables, translated_by};

use address::{Address, PointCode};
use translation::{Availability, Cause, Routing, Translation, Translator};

// What a station is told of its network: where titles lead, and what is up. It means what tables mean; asked again, it
// answers the same.
pub trait Network {
    ghost told: { Self → TablesView };

    // Where an address leads by its title, at the station of the code `own`.
    fn translate(&self, own: PointCode, address: Address<'_>) -> Result<Translation, Cause>
        ensures { translation_given result ≡ translated_by (told self.now) (code_number own) address.entry.octets.now };

    // Whether messages can be brought to a code. The own one is up.
    fn code_trial(&self, own: PointCode, code: PointCode) -> Result<(), Cause>
        ensures { result ≡ passes (code_trial (told self.now).codes (code_number own) (code_number code)) };

    // Whether a subsystem at a code takes messages.
    fn subsystem_trial(&self, code: PointCode, subsystem: Option<u8>) -> Result<(), Cause>
        ensures { result ≡ passes (subsystem_trial (told self.now).subsystems (code_number code) subsystem) };

    // Whether a message so routed can go to a code.
    fn trial(
        &self,
        own: PointCode,
        routing: Routing,
        code: PointCode,
        subsystem: Option<u8>,
    ) -> Result<(), Cause>
        ensures { result ≡ passes (trial_of (told self.now).codes (told self.now).subsystems (code_number own) routing (code_number code) subsystem) };
}

// The tables that a call is given: what turns titles into destinations, and what is known of codes and subsystems.
#[derive(Drop)]
pub struct Tables<'t, X, V> {
    pub translator: &'t X,
    pub availability: &'t V,
}

impl<X: Translator, V: Availability> Network for Tables<'_, X, V> {
    ghost told = { λ t. tables (X.known t.translator.now) (X.fit t.translator.now) (V.codes t.availability.now) (V.subsystems t.availability.now) };

    fn translate(&self, own: PointCode, address: Address<'_>) -> Result<Translation, Cause> {
        translation::translate(self.translator, self.availability, own, address)
    }

    fn code_trial(&self, own: PointCode, code: PointCode) -> Result<(), Cause> {
        translation::code_trial(self.availability, own, code)
    }

    fn subsystem_trial(&self, code: PointCode, subsystem: Option<u8>) -> Result<(), Cause> {
        translation::subsystem_trial(self.availability, code, subsystem)
    }

    fn trial(
        &self,
        own: PointCode,
        routing: Routing,
        code: PointCode,
        subsystem: Option<u8>,
    ) -> Result<(), Cause> {
        translation::trial(self.availability, own, routing, code, subsystem)
    }
}
