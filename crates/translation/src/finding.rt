ghost use Rattle.std.specs.Prelude.{◌≡◌};
ghost use Rattle.address.specs.Address.{title_in};
ghost use Rattle.translation.specs.Translating.{title_selector, rule_for, rule_given};

use crate::causes::Cause;
use crate::meanings::Translator;
use crate::rules::{Rule, Selector};
use address::{Address, Title};

const KIND_WITH_TYPE: u8 = 2;

const KIND_WITH_ALL: u8 = 4;

// The selector of an address, where it has a title with digits.
pub fn selector_of(address: Address<'_>) -> Option<Selector>
    ensures { result ≡ title_selector (title_in address.entry.octets.now) }
{
    match address.title()? {
        Title::Kind2 {
            translation_type,
            ..
        } => Some(Selector {
            kind: KIND_WITH_TYPE,
            translation_type,
            numbering_plan: 0,
            nature: 0,
        }),
        Title::Kind4 {
            translation_type,
            numbering_plan,
            nature,
            ..
        } => Some(Selector {
            kind: KIND_WITH_ALL,
            translation_type,
            numbering_plan,
            nature,
        }),
        Title::Other { .. } => None,
    }
}

// The rule for an address, or the cause why there is none.
pub fn rule_for<X: Translator>(translator: &X, address: Address<'_>) -> Result<Rule, Cause>
    ensures { rule_given result ≡ rule_for (X.known translator.now) (X.fit translator.now) (title_in address.entry.octets.now) }
{
    let selector = selector_of(address).ok_or(Cause::NoTranslationOfNature)?;
    if !translator.knows(selector) {
        return Err(Cause::NoTranslationOfNature);
    }
    let digits = address
        .title()
        .and_then(|title| title.digits())
        .ok_or(Cause::NoTranslation)?;
    let rule = translator.rule(selector, digits.octets());
    rule.ok_or(Cause::NoTranslation)
}
