// Messages told in words, for people and for scripts.
use crate::stops::Stop;
use crate::words;
use address::{Address, Title};
use message::{Form, Parts, Segmentation};

// Stays: a bool has words of its own, and no other Display can stand on it.
fn yes_no(b: bool) -> &'static str {
    if b { "yes" } else { "no" }
}

// What messages are brought by: the subsystem, or the title.
pub fn way(on_subsystem: bool) -> &'static str {
    if on_subsystem { "subsystem" } else { "title" }
}

// The type of a message with what stands before its pointers.
fn tell_form(rt: &HostRuntime, form: Form) -> Result<(), Stop> {
    let returns = yes_no(form.asks_return());
    match form {
        Form::Udt { class } => print!(rt; " class={} return={returns}", class % 16)?,
        Form::Udts { cause } => print!(rt; " cause={cause}")?,
        Form::Xudt { class, hop } => print!(rt;
            " class={} return={returns} hop={hop}",
            class % 16
        )?,
        Form::Xudts { cause, hop } => print!(rt; " cause={cause} hop={hop}")?,
    }
    Ok(())
}

// Stays: the forms are a type of another crate, on which no Display can stand here.
fn name_of(form: Form) -> &'static str {
    match form {
        Form::Udt { .. } => "UDT",
        Form::Udts { .. } => "UDTS",
        Form::Xudt { .. } => "XUDT",
        Form::Xudts { .. } => "XUDTS",
    }
}

pub fn print_digits(rt: &HostRuntime, digits: &[u8]) -> Result<(), Stop> {
    print!(rt; " digits=")?;
    for d in digits {
        print!(rt; "{}", char::from_digit(*d as u32, 16).unwrap_or('?'))?;
    }
    Ok(())
}

// The digits of a title, or its octets where it does not tell how many digits they are.
fn tell_digits(rt: &HostRuntime, title: Title, octets: &[u8]) -> Result<(), Stop> {
    match title.digits() {
        Some(digits) => print_digits(rt, digits.octets())?,
        None => print!(rt; " octets={}", hexadecimal::text_of(rt.alloc(), octets)?)?,
    }
    Ok(())
}

fn tell_title(rt: &HostRuntime, title: Title) -> Result<(), Stop> {
    match title {
        Title::Kind2 {
            translation_type,
            digits,
        } => {
            print!(rt; ", title kind=2 tt={translation_type}")?;
            tell_digits(rt, title, digits)
        }
        Title::Kind4 {
            translation_type,
            numbering_plan,
            encoding,
            nature,
            digits,
        } => {
            print!(rt;
                ", title kind=4 tt={translation_type} np={numbering_plan} encoding={encoding} nai={nature}"
            )?;
            tell_digits(rt, title, digits)
        }
        Title::Other { kind, octets } => {
            print!(rt; ", title kind={kind}")?;
            tell_digits(rt, title, octets)
        }
    }
}

// An address on a line of its own: how it is routed, and what it holds.
pub fn tell_address(rt: &HostRuntime, name: &str, a: Address) -> Result<(), Stop> {
    if a.is_empty() {
        println!(rt; "  {name}: empty")?;
        return Ok(());
    }
    print!(rt; "  {name}: on {}", way(a.on_subsystem()))?;
    if let Some(code) = a.code() {
        print!(rt; ", code {code}")?;
    }
    if let Some(subsystem) = a.subsystem() {
        print!(rt; ", subsystem {subsystem}")?;
    }
    if let Some(title) = a.title() {
        tell_title(rt, title)?;
    }
    println!(rt)?;
    Ok(())
}

fn tell_segmentation(rt: &HostRuntime, found: Segmentation) -> Result<(), Stop> {
    println!(rt;
        "  segmentation: first={} class={} remaining={} reference={}",
        yes_no(found.first),
        found.class,
        found.remaining,
        found.reference
    )?;
    Ok(())
}

fn tell(rt: &HostRuntime, parts: Parts) -> Result<(), Stop> {
    let heap = rt.alloc();
    print!(rt;
        "read: {} dpc={} opc={} sls={}",
        name_of(parts.form),
        parts.label.dpc,
        parts.label.opc,
        parts.label.sls
    )?;
    tell_form(rt, parts.form)?;
    let called = hexadecimal::text_of(heap, parts.called.octets())?;
    let calling = hexadecimal::text_of(heap, parts.calling.octets())?;
    let data = hexadecimal::text_of(heap, parts.data)?;
    print!(rt; " called={called} calling={calling} data={data}")?;
    if parts.form.hop().is_some() {
        print!(rt;
            " options={}",
            hexadecimal::text_of(heap, parts.options.octets())?
        )?;
    }
    println!(rt)?;
    tell_address(rt, "called", parts.called)?;
    tell_address(rt, "calling", parts.calling)?;
    if let Some(found) = parts.options.segmentation() {
        tell_segmentation(rt, found)?;
    }
    Ok(())
}

// What the octets of a line are, label included: a message, or a fault.
pub fn read(rt: &HostRuntime, rest: &str) -> Result<(), Stop> {
    let octets = words::octets_behind(rt.alloc(), rest)?;
    tell(rt, message::read(octets.as_slice())?.parts())
}
