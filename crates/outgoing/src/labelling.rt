ghost use Rattle.std.specs.Prelude.{◌≡◌};
ghost use Rattle.address.specs.Code.{code_number};
ghost use Rattle.outgoing.specs.Puts.{label_to};

use address::{Label, PointCode};

// The label of what goes to a code from the own one, over this link.
// Stays: codes are given side by side, since they come out of a target or a way and are used at once.
pub(crate) fn label_to(code: PointCode, own: PointCode, sls: u8) -> Label
    ensures { result ≡ label_to (code_number code) (code_number own) sls }
{
    Label {
        dpc: code.number(),
        opc: own.number(),
        sls,
    }
}
