ghost use Rattle.std.specs.Prelude.{◌≡◌};
ghost use Rattle.routing.specs.Deliveries.{delivery_seen, delivery_of};

use message::{Form, Options, Segmentation};

// As what a message is brought to a subsystem: a unit, a notice of data that was returned, or a piece of a unit.
#[derive(Clone, Copy)]
pub enum Delivery {
    Unit,
    Notice,
    Piece(Segmentation),
}

// UDTS and XUDTS are a notice, an XUDT with segmentation is a piece, the rest is a unit.
pub fn delivery_of(form: Form, options: Options<'_>) -> Delivery
    ensures { delivery_seen result ≡ delivery_of form options.entry.octets.now }
{
    match form {
        Form::Udt { .. } => Delivery::Unit,
        Form::Xudt { .. } => options
            .segmentation()
            .map_or(Delivery::Unit, Delivery::Piece),
        Form::Udts { .. } | Form::Xudts { .. } => Delivery::Notice,
    }
}
