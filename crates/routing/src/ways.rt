ghost use Rattle.std.specs.Prelude.{◌≡◌};
ghost use Rattle.address.specs.Code.{code_number};
ghost use Rattle.routing.specs.Ways.{way_of, less_hop, on_title_way, way_for};

use crate::networks::Network;
use crate::nodes::Node;
use address::{Address, AddressBuffer, PointCode};
use message::Form;
use translation::Cause;

// Where a message that was received goes: to a subsystem here, or on to another code, with its form and called address there.
#[derive(Clone, Copy)]
pub enum Way {
    Here {
        subsystem: u8,
    },
    Onward {
        code: PointCode,
        form: Form,
        called: AddressBuffer,
    },
}

// The form after a translation, which takes one hop; none where no hop would be left.
fn less_hop(form: Form) -> Option<Form>
    ensures { result ≡ less_hop form }
{
    match form {
        Form::Udt { .. } | Form::Udts { .. } => Some(form),
        Form::Xudt { class, hop } if hop > 1 => Some(Form::Xudt {
            class,
            hop: hop - 1,
        }),
        Form::Xudts { cause, hop } if hop > 1 => Some(Form::Xudts {
            cause,
            hop: hop - 1,
        }),
        Form::Xudt { .. } | Form::Xudts { .. } => None,
    }
}

impl<'n, N: Network> Node<'n, N> {
    // The way of a message that is routed on its title.
    fn title_way(&self, form: Form, called: Address<'_>) -> Result<Way, Cause>
        ensures { way_of result ≡ on_title_way (N.told self.now.network.now) (code_number self.now.code) called.entry.octets.now (less_hop form) }
    {
        let form = less_hop(form).ok_or(Cause::HopCounterViolation)?;
        let found = self.network.translate(self.code, called)?;
        if found.route.code != self.code {
            return Ok(Way::Onward {
                code: found.route.code,
                form,
                called: found.called,
            });
        }
        let subsystem = found.route.subsystem.ok_or(Cause::NoTranslation)?;
        Ok(Way::Here { subsystem })
    }

    // Where a message of this form goes that was received here with this called address, or the cause why nowhere.
    #[tactic(auto, unfolding(crate::specs::Ways::way_for))]
    pub fn way_for(&self, form: Form, called: Address<'_>) -> Result<Way, Cause>
        ensures { way_of result ≡ way_for (N.told self.now.network.now) (code_number self.now.code) form called.entry.octets.now }
    {
        if !called.on_subsystem() {
            return self.title_way(form, called);
        }
        let subsystem = called.subsystem();
        self.network.subsystem_trial(self.code, subsystem)?;
        let subsystem = subsystem.ok_or(Cause::NoTranslation)?;
        Ok(Way::Here { subsystem })
    }
}
