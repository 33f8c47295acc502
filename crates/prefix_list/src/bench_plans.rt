ghost use Rattle.std.specs.Prelude.{◌≡◌};
ghost use Rattle.translation.specs.Rules.{backup_seen, rule_found};
ghost use Rattle.prefix_list.specs.Plan.{plan_destination, plan_rule};
ghost use Rattle.prefix_list.specs.Prefixes.{same_selector};

use crate::digits;
use address::PointCode;
use translation::{Destination, Routing, Rule, Selector, Translator};

const DECIMAL: u8 = 10;

// The translator of a test bench. It knows one selector; eight decimal digits, five for the
// code and three for the subsystem, give a rule on subsystem without backup.
#[derive(Clone, Copy)]
pub struct BenchPlan {
    pub selector: Selector,
}

// The destination that eight digits name, where they name one.
// Stays: eight digits by name, since they are two numbers.
fn planned(digits: &[u8]) -> Option<Destination>
    ensures { backup_seen result ≡ plan_destination digits.now }
{
    let &[a, b, c, d, e, f, g, h] = digits else {
        return None;
    };
    if !digits::all_below(digits, DECIMAL) {
        return None;
    }
    let code = 10_000 * u32::from(a)
        + 1_000 * u32::from(b)
        + 100 * u32::from(c)
        + 10 * u32::from(d)
        + u32::from(e);
    let subsystem = 100 * u32::from(f) + 10 * u32::from(g) + u32::from(h);
    let code = PointCode::new(u16::try_from(code).ok()?)?;
    let subsystem = u8::try_from(subsystem).ok()?;
    Some(Destination {
        code,
        subsystem: Some(subsystem),
    })
}

impl Translator for BenchPlan {
    ghost known = { λ p s. same_selector s p.selector };

    ghost fit = { λ p s ds. plan_rule p.selector s ds };

    fn knows(&self, selector: Selector) -> bool {
        selector == self.selector
    }

    fn rule(&self, selector: Selector, digits: &[u8]) -> Option<Rule> {
        if selector != self.selector {
            return None;
        }
        let primary = planned(digits)?;
        Some(Rule {
            routing: Routing::OnSubsystem,
            primary,
            backup: None,
        })
    }
}
