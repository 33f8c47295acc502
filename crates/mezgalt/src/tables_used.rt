// The commands on tables: `prefix` and `plan` say how titles are translated, `code`,
// `subsystem` and `map` what is up, and `translate` tries an address.
use crate::stops::Stop;
use crate::words::BadLine;
use crate::{messages_shown, words};
use address::{Address, PointCode};
use availability::{Exception, ExceptionList, StateMap};
use prefix_list::{BenchPlan, EntryDestination, PrefixEntry, PrefixList};
use std::alloc::Global;
use translation::{
    Availability, CodeState, Destination, Routing, Rule, Selector, SubsystemState, Translator,
};

// The tables of a script. A plan stands in the place of the prefixes from its line on, until
// the next prefix; a map in the place of the states of codes and subsystems, until the next.
#[derive(Drop)]
pub struct Tables {
    prefixes: Vec<PrefixEntry>,
    plan: Option<Selector>,
    exceptions: Vec<Exception>,
    map: Option<Vec<u8>>,
}

fn selector(rest: &str) -> Result<Selector, BadLine> {
    Ok(Selector {
        kind: words::number(words::value(rest, "kind")?)?,
        translation_type: words::number(words::value(rest, "tt")?)?,
        numbering_plan: words::number(words::value(rest, "np")?)?,
        nature: words::number(words::value(rest, "nai")?)?,
    })
}

// A code, or a code and a subsystem with a stroke between them.
fn destination(word: &str) -> Result<EntryDestination, BadLine> {
    let (code, subsystem) = match word.split_once('/') {
        Some((code, subsystem)) => (code, Some(words::number(subsystem)?)),
        None => (word, None),
    };
    Ok(EntryDestination {
        code: words::number(code)?,
        subsystem,
    })
}

// Up to 16 digits, `-` for none.
// Stays: an entry of a prefix list has its digits and their count side by side.
fn digits(word: &str) -> Result<([u8; 16], u8), BadLine> {
    let text = if word == "-" { "" } else { word };
    let mut values = [0u8; 16];
    if text.len() > values.len() {
        return Err(BadLine::NotDigits);
    }
    for (value, digit) in values.iter_mut().zip(text.chars()) {
        *value = digit.to_digit(16).ok_or(BadLine::NotDigits)? as u8;
    }
    Ok((values, text.len() as u8))
}

// Stays: routing and the states are types of other crates, on which no FromStr can stand here.
fn routing(word: &str) -> Result<Routing, BadLine> {
    match word {
        "title" => Ok(Routing::OnTitle),
        "subsystem" => Ok(Routing::OnSubsystem),
        _ => Err(BadLine::NotRouting),
    }
}

fn code_state(word: &str) -> Result<CodeState, BadLine> {
    match word {
        "up" => Ok(CodeState::Up),
        "down" => Ok(CodeState::TransferDown),
        "sccp-down" => Ok(CodeState::SccpDown),
        _ => Err(BadLine::NotState),
    }
}

fn subsystem_state(word: &str) -> Result<SubsystemState, BadLine> {
    match word {
        "up" => Ok(SubsystemState::Working),
        "failed" => Ok(SubsystemState::Failed),
        "unequipped" => Ok(SubsystemState::Unequipped),
        _ => Err(BadLine::NotState),
    }
}

fn entry(rest: &str) -> Result<PrefixEntry, BadLine> {
    words::only_keys(
        rest,
        &["kind", "tt", "np", "nai", "digits", "on", "to", "backup"],
    )?;
    let (digits, count) = digits(words::value(rest, "digits")?)?;
    let backup = words::value(rest, "backup")
        .ok()
        .map(destination)
        .transpose()?;
    Ok(PrefixEntry {
        selector: selector(rest)?,
        count,
        digits,
        routing: routing(words::value(rest, "on")?)?,
        primary: destination(words::value(rest, "to")?)?,
        backup,
    })
}

// What a `translate` line asks for: the octets of an address, and the code of a station.
fn asked(heap: Global, rest: &str) -> Result<(Vec<u8>, PointCode), BadLine> {
    let (address, behind) = words::parted(rest);
    if address.is_empty() {
        return Err(BadLine::NeedsHex);
    }
    words::only_keys(behind, &["own"])?;
    let own = words::number(words::value(behind, "own")?)?;
    let octets = words::octets(heap, address)?;
    Ok((octets, PointCode::new(own).ok_or(BadLine::NotCode)?))
}

fn print_destination(rt: &HostRuntime, d: Destination) -> Result<(), Stop> {
    print!(rt; "{}", d.code.number())?;
    if let Some(subsystem) = d.subsystem {
        print!(rt; "/{subsystem}")?;
    }
    Ok(())
}

fn way(routing: Routing) -> &'static str {
    messages_shown::way(routing == Routing::OnSubsystem)
}

fn print_rule(rt: &HostRuntime, rule: Rule) -> Result<(), Stop> {
    print!(rt; " rule={}:", way(rule.routing))?;
    print_destination(rt, rule.primary)?;
    if let Some(backup) = rule.backup {
        print!(rt; ",")?;
        print_destination(rt, backup)?;
    }
    Ok(())
}

// What is known before any trial, on the line for scripts: selector, digits and rule.
fn print_found(rt: &HostRuntime, a: Address, rule: Option<Rule>) -> Result<(), Stop> {
    match translation::selector_of(a) {
        Some(s) => print!(rt;
            "translate: selector={}/{}/{}/{}",
            s.kind, s.translation_type, s.numbering_plan, s.nature
        )?,
        None => print!(rt; "translate: selector=-")?,
    }
    match a.title().and_then(|title| title.digits()) {
        Some(found) => messages_shown::print_digits(rt, found.octets())?,
        None => print!(rt; " digits=-")?,
    }
    match rule {
        Some(rule) => print_rule(rt, rule),
        None => Ok(print!(rt; " rule=-")?),
    }
}

// Where an address is tried: at the station of a code, by what is known of the network.
#[derive(Drop)]
struct Tried<'a, V> {
    availability: &'a V,
    own: PointCode,
}

impl<V: Availability> Tried<'_, V> {
    // The trials of a rule for an address, each on a line for people.
    fn tell_trials(&self, rt: &HostRuntime, rule: Rule, a: Address) -> Result<(), Stop> {
        for (name, tried) in [("primary", Some(rule.primary)), ("backup", rule.backup)] {
            let Some(d) = tried else { continue };
            print!(rt; "  {name} {}: ", d.code.number())?;
            match d.route(self.availability, self.own, rule.routing, a.subsystem()) {
                Ok(_) => println!(rt; "can be reached")?,
                Err(cause) => println!(rt; "cause {}: {cause}", cause.number())?,
            }
        }
        Ok(())
    }

    // Translates the address: a line for scripts, and lines for people below it.
    fn tell<X: Translator>(
        &self,
        rt: &HostRuntime,
        translator: &X,
        a: Address,
    ) -> Result<(), Stop> {
        let rule = translation::rule_for(translator, a).ok();
        print_found(rt, a, rule)?;
        match translation::translate(translator, self.availability, self.own, a) {
            Ok(t) => {
                let called = hexadecimal::text_of(rt.alloc(), t.called.octets())?;
                print!(rt; " to={} on={}", t.route.code.number(), way(t.route.routing))?;
                if let Some(subsystem) = t.route.subsystem {
                    print!(rt; " subsystem={subsystem}")?;
                }
                println!(rt; " called={called}")?;
            }
            Err(cause) => println!(rt; " cause={}: {cause}", cause.number())?,
        }
        messages_shown::tell_address(rt, "address", a)?;
        if let Some(rule) = rule {
            self.tell_trials(rt, rule, a)?;
        }
        Ok(())
    }
}

impl Tables {
    pub fn new(heap: Global) -> Tables {
        Tables {
            prefixes: Vec::new(heap),
            plan: None,
            exceptions: Vec::new(heap),
            map: None,
        }
    }

    // Adds a prefix; answers whether its values are in their ranges.
    fn add_prefix(&mut self, rest: &str) -> Result<bool, BadLine> {
        let entry = entry(rest)?;
        self.prefixes.push(entry)?;
        self.plan = None;
        Ok(entry.rule().is_some())
    }

    pub fn prefix(&mut self, rt: &HostRuntime, rest: &str) -> Result<(), Stop> {
        if self.add_prefix(rest)? {
            println!(rt; "prefix: noted")?;
        } else {
            println!(rt; "prefix: noted, but a value is out of range, so it fits nothing")?;
        }
        Ok(())
    }

    pub fn plan(&mut self, rt: &HostRuntime, rest: &str) -> Result<(), Stop> {
        words::only_keys(rest, &["kind", "tt", "np", "nai"])?;
        self.plan = Some(selector(rest)?);
        println!(rt; "plan: noted")?;
        Ok(())
    }

    // The later of two lines on one code or subsystem holds: a list's first entry does.
    fn add_exception(&mut self, e: Exception) -> Result<(), BadLine> {
        self.exceptions.insert(0, e)?;
        self.map = None;
        Ok(())
    }

    pub fn code(&mut self, rt: &HostRuntime, rest: &str) -> Result<(), Stop> {
        let (code, state) = words::parted(rest);
        let state = code_state(words::only_word(state, BadLine::NotState)?)?;
        let code = words::number(code)?;
        self.add_exception(Exception::Code { code, state })?;
        println!(rt; "code: noted")?;
        Ok(())
    }

    pub fn subsystem(&mut self, rt: &HostRuntime, rest: &str) -> Result<(), Stop> {
        let (place, state) = words::parted(rest);
        let state = subsystem_state(words::only_word(state, BadLine::NotState)?)?;
        let (code, subsystem) = place.split_once('/').ok_or(BadLine::NotPlace)?;
        let code = words::number(code)?;
        let subsystem = words::number(subsystem)?;
        self.add_exception(Exception::Subsystem {
            code,
            subsystem,
            state,
        })?;
        println!(rt; "subsystem: noted")?;
        Ok(())
    }

    pub fn map(&mut self, rt: &HostRuntime, rest: &str) -> Result<(), Stop> {
        let octets = words::octets_behind(rt.alloc(), rest)?;
        println!(rt; "map: {} codes", octets.len().saturating_mul(4))?;
        self.map = Some(octets);
        Ok(())
    }

    fn translate_by<V: Availability>(
        &self,
        rt: &HostRuntime,
        availability: &V,
        own: PointCode,
        a: Address,
    ) -> Result<(), Stop> {
        let tried = Tried { availability, own };
        match self.plan {
            Some(selector) => tried.tell(rt, &BenchPlan { selector }, a),
            None => tried.tell(rt, &PrefixList::new(self.prefixes.as_slice()), a),
        }
    }

    pub fn translate(&self, rt: &HostRuntime, rest: &str) -> Result<(), Stop> {
        let (octets, own) = asked(rt.alloc(), rest)?;
        let a = Address::new(octets.as_slice());
        match &self.map {
            Some(map) => self.translate_by(rt, &StateMap::new(map.as_slice()), own, a),
            None => self.translate_by(rt, &ExceptionList::new(self.exceptions.as_slice()), own, a),
        }
    }
}
