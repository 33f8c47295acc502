ghost use Rattle.std.specs.Prelude.{◌≡◌};
ghost use Rattle.outgoing.specs.Classes.{class_number, class_found, class_of_number};

// The protocol class of a unit: basic, or in sequence, in which units with the same sequence number take the same link.
#[derive(Clone, Copy, PartialEq, Eq, Debug)]
pub enum Class {
    Basic = 0,
    InSequence = 1,
}

impl Class {
    // The class of a number, where there is such a class.
    // Stays: a test with one way to fail; a TryFrom would add an error that says no more.
    pub fn of_number(number: u8) -> Option<Class>
        ensures { class_found result ≡ class_of_number number }
    {
        match number {
            0 => Some(Class::Basic),
            1 => Some(Class::InSequence),
            _ => None,
        }
    }

    pub fn number(self) -> u8
        ensures { result ≡ class_number self }
    {
        self as u8
    }
}
