ghost use Rattle.std.specs.Prelude.{◌≡◌};
ghost use Rattle.std.specs.Option.{option_copied};
ghost use Rattle.translation.specs.Rules.{rule_found, backup_seen};
ghost use Rattle.prefix_list.specs.Prefixes.{destination_in, prefix_in, prefix_ranged, same_selector, selector_ranged, entry_rule, entry_fits};

use crate::digits;
use address::PointCode;
use translation::{Destination, Routing, Rule, Selector};

const DIGITS: u8 = 16;

const PLANS: u8 = 16;

const NATURES: u8 = 128;

// A destination as an entry gives it; the code may be any number.
#[derive(Clone, Copy)]
pub struct EntryDestination {
    pub code: u16,
    pub subsystem: Option<u8>,
}

// An entry of a prefix list: a selector, the first `count` of `digits`, and a rule. The
// values may be any; an entry with a value out of its range fits nothing.
#[derive(Clone, Copy)]
pub struct PrefixEntry {
    pub selector: Selector,
    // Stays: a count beside the digits, since a lent table may hold any count.
    pub count: u8,
    pub digits: [u8; 16],
    pub routing: Routing,
    pub primary: EntryDestination,
    pub backup: Option<EntryDestination>,
}

// Whether titles can have this selector: kind 2 or 4, numbering plan to 15, nature to 127.
fn selector_ranged(selector: Selector) -> bool
    ensures { result ≡ selector_ranged selector }
{
    matches!(selector.kind, 2 | 4) && selector.numbering_plan < PLANS && selector.nature < NATURES
}

impl EntryDestination {
    // The destination, where its code is a point code.
    fn ranged(self) -> Option<Destination>
        ensures { backup_seen result ≡ destination_in self }
    {
        let code = PointCode::new(self.code)?;
        Some(Destination {
            code,
            subsystem: self.subsystem,
        })
    }
}

impl PrefixEntry {
    // Whether the entry is for titles with this selector.
    pub(crate) fn is_for(&self, selector: Selector) -> bool
        ensures { result ≡ same_selector self.now.selector selector }
    {
        self.selector == selector
    }

    // The digits of the entry, where there are at most 16.
    fn prefix(&self) -> Option<&[u8]>
        ensures { option_copied result ≡ prefix_in self.now }
    {
        self.digits.get(..usize::from(self.count))
    }

    // Whether there are at most 16 digits, each 0 to 15.
    fn prefix_ranged(&self) -> bool
        ensures { result ≡ prefix_ranged self.now }
    {
        self.prefix()
            .is_some_and(|prefix| digits::all_below(prefix, DIGITS))
    }

    // The rule of the entry, where every value is in its range.
    pub fn rule(&self) -> Option<Rule>
        ensures { rule_found result ≡ entry_rule self.now }
    {
        if !selector_ranged(self.selector) || !self.prefix_ranged() {
            return None;
        }
        let primary = self.primary.ranged()?;
        // Stays: a backup that is named must be in range too, and `map` cannot hand its None on.
        let backup = match self.backup {
            Some(destination) => Some(destination.ranged()?),
            None => None,
        };
        Some(Rule {
            routing: self.routing,
            primary,
            backup,
        })
    }

    // Whether the entry fits the digits of a title: its values are in their ranges, the
    // selectors are the same, and the digits begin with its own. The ranges take longest, and
    // are tested last.
    pub fn fits(&self, selector: Selector, digits: &[u8]) -> bool
        ensures { result ≡ entry_fits selector digits.now self.now }
    {
        self.prefix()
            .is_some_and(|prefix| digits.starts_with(prefix))
            && self.is_for(selector)
            && self.rule().is_some()
    }
}
