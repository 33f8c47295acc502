ghost use Rattle.std.specs.Prelude.{◌≡◌};
ghost use Rattle.address.specs.Code.{code_number};
ghost use Rattle.translation.specs.Rules.{destination_seen, rule_seen};
ghost use Rattle.translation.specs.Translating.{route_given, route_tried, route_to, route_by, CanGo};

use crate::causes::Cause;
use crate::meanings::Availability;
use crate::rules::{Destination, Routing, Rule};
use crate::trials;
use address::PointCode;

// Where a message goes: a code, how it is routed there, and the subsystem, where there is one.
#[derive(Clone, Copy)]
pub struct Route {
    pub code: PointCode,
    pub routing: Routing,
    pub subsystem: Option<u8>,
}

impl Destination {
    // The way to this destination for an address with this subsystem, where it can be gone.
    pub fn route<V: Availability>(
        self,
        availability: &V,
        own: PointCode,
        routing: Routing,
        given: Option<u8>,
    ) -> Result<Route, Cause>
        ensures value { route_given result ≡ route_tried (V.codes availability.now) (V.subsystems availability.now) (code_number own) (route_to routing (destination_seen self) given) }
        ensures tried { CanGo (V.codes availability.now) (V.subsystems availability.now) (code_number own) (route_given result) }
    {
        let subsystem = self.subsystem.or(given);
        trials::trial(availability, own, routing, self.code, subsystem)?;
        Ok(Route {
            code: self.code,
            routing,
            subsystem,
        })
    }
}

// Where a rule leads an address with this subsystem: to the primary destination, else to the
// backup; where both fail, the primary's cause.
pub fn route_by<V: Availability>(
    availability: &V,
    own: PointCode,
    rule: Rule,
    given: Option<u8>,
) -> Result<Route, Cause>
    ensures value { route_given result ≡ route_by (V.codes availability.now) (V.subsystems availability.now) (code_number own) (rule_seen rule) given }
    ensures tried { CanGo (V.codes availability.now) (V.subsystems availability.now) (code_number own) (route_given result) }
{
    let primary = rule.primary.route(availability, own, rule.routing, given);
    match (primary, rule.backup) {
        (Err(cause), Some(backup)) => backup
            .route(availability, own, rule.routing, given)
            .map_err(|_| cause),
        _ => primary,
    }
}
