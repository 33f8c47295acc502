ghost use Rattle.std.specs.Prelude.{◌≡◌};
ghost use Rattle.address.specs.Code.{code_number};
ghost use Rattle.address.specs.Rewrite.{buffer_found, rewritten};
ghost use Rattle.address.specs.declared.rewriting.CodeChange.TheVariants.{Remove as WithoutCode};
ghost use Rattle.translation.specs.Translating.{is_on_subsystem, route_for, route_given, translate_of, translation_given, CanBeGone, CanGo};

use crate::causes::Cause;
use crate::meanings::{Availability, Translator};
use crate::routes::Route;
use crate::rules::Routing;
use crate::{finding, routes};
use address::{Address, AddressBuffer, CodeChange, PointCode};

// What becomes of an address with a title: where the message goes, and the called address
// that it has there.
#[derive(Clone, Copy)]
pub struct Translation {
    pub route: Route,
    pub called: AddressBuffer,
}

impl Route {
    // The called address of a message that goes this way: routed so, with the subsystem, the
    // same title, and no code. None where the octets are no address.
    pub fn called(self, address: Address<'_>) -> Option<AddressBuffer>
        ensures { buffer_found result ≡ rewritten (is_on_subsystem self.routing) WithoutCode self.subsystem address.entry.octets.now }
    {
        let on_subsystem = self.routing == Routing::OnSubsystem;
        address.rewritten(on_subsystem, CodeChange::Remove, self.subsystem)
    }
}

// Where a message with this called address goes, or the cause why it can go nowhere.
pub fn route_for<X: Translator, V: Availability>(
    translator: &X,
    availability: &V,
    own: PointCode,
    address: Address<'_>,
) -> Result<Route, Cause>
    ensures value { route_given result ≡ route_for (X.known translator.now) (X.fit translator.now) (V.codes availability.now) (V.subsystems availability.now) (code_number own) address.entry.octets.now }
    ensures tried { CanGo (V.codes availability.now) (V.subsystems availability.now) (code_number own) (route_given result) }
{
    let rule = finding::rule_for(translator, address)?;
    routes::route_by(availability, own, rule, address.subsystem())
}

// Translates a called address: where the message goes, and its new called address; or the
// cause why it can go nowhere.
// Stays: side by side, since a rule asks the translator alone and a trial what is known alone; one value would be taken apart at each call.
pub fn translate<X: Translator, V: Availability>(
    translator: &X,
    availability: &V,
    own: PointCode,
    address: Address<'_>,
) -> Result<Translation, Cause>
    ensures value { translation_given result ≡ translate_of (X.known translator.now) (X.fit translator.now) (V.codes availability.now) (V.subsystems availability.now) (code_number own) address.entry.octets.now }
    ensures tried { CanBeGone (V.codes availability.now) (V.subsystems availability.now) (code_number own) (translation_given result) }
{
    if !address.is_good() {
        return Err(Cause::NoTranslationOfNature);
    }
    let route = route_for(translator, availability, own, address)?;
    let called = route.called(address).ok_or(Cause::NoTranslation)?;
    Ok(Translation { route, called })
}
