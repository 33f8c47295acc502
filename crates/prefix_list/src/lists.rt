ghost use Rattle.std.specs.Prelude.{◌≡◌};
ghost use Rattle.std.specs.Option.{option_copied};
ghost use Rattle.translation.specs.Rules.{rule_found};
ghost use Rattle.prefix_list.specs.Longest.{LongestDecides};
ghost use Rattle.prefix_list.specs.Prefixes.{longer_of, longest, rule_of, any_of};

use crate::entries::PrefixEntry;
use translation::{Rule, Selector, Translator};

// A translator over a lent list of prefixes. It knows the selector of every entry; of the
// entries that fit the digits the one with the longest prefix decides, the earlier of two
// that are equally long.
#[derive(Clone, Copy)]
pub struct PrefixList<'a> {
    entries: &'a [PrefixEntry],
}

// The better of what was found and an entry that fits: the longer, the earlier if equal.
// Stays: max_by_key takes the last of equals, so the list would have to be turned.
fn better_of<'e>(best: Option<&'e PrefixEntry>, entry: &'e PrefixEntry) -> Option<&'e PrefixEntry>
    ensures { option_copied result ≡ longer_of (option_copied best.entry) entry.now }
{
    if best.is_none_or(|found| found.count < entry.count) {
        Some(entry)
    } else {
        best
    }
}

impl<'a> PrefixList<'a> {
    pub fn new(entries: &'a [PrefixEntry]) -> PrefixList<'a>
        ensures { result.entries.now ≡ entries.now }
    {
        PrefixList { entries }
    }

    // The entry that decides for the digits of a title, where one fits. It is looked for by
    // references, and copied once.
    pub fn entry_for(&self, selector: Selector, digits: &[u8]) -> Option<PrefixEntry>
        ensures { result ≡ longest selector digits.now self.now.entries.now }
    {
        self.entries
            .iter()
            .filter(|entry| entry.fits(selector, digits))
            .fold(None, |best, entry| better_of(best, entry))
            .copied()
    }

    // The rule for the digits of a title, where one fits.
    #[tactic(auto, using(crate::proofs::Choosing::longest_decides))]
    pub fn find(&self, selector: Selector, digits: &[u8]) -> Option<Rule>
        ensures value { rule_found result ≡ rule_of (longest selector digits.now self.now.entries.now) }
        ensures law { LongestDecides selector digits.now self.now.entries.now (rule_found result) }
    {
        self.entry_for(selector, digits)?.rule()
    }
}

impl Translator for PrefixList<'_> {
    ghost known = { λ p s. any_of s p.entries.now };

    ghost fit = { λ p s ds. rule_of (longest s ds p.entries.now) };

    fn knows(&self, selector: Selector) -> bool {
        self.entries.iter().any(|entry| entry.is_for(selector))
    }

    fn rule(&self, selector: Selector, digits: &[u8]) -> Option<Rule> {
        self.find(selector, digits)
    }
}
