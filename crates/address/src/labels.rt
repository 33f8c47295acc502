ghost use Rattle.std.specs.Prelude.{◌≡◌};
ghost use Rattle.address.specs.Label.{label_of, label_octets, LabelFigure, LabelReadsBack, LabelWritesBack};

// The routing label that stands before every message on a line: four octets, low octet
// first, with the destination and the origin point code (14 bits each) and the link
// selection (4 bits).
#[derive(Clone, Copy, PartialEq, Eq, Debug)]
pub struct Label {
    pub dpc: u16,
    pub opc: u16,
    pub sls: u8,
}

impl From<[u8; 4]> for Label {
    ghost from_gives = { λ octets l. l ≡ label_of octets };

    fn from(octets: [u8; 4]) -> Label
        ensures value { result ≡ label_of octets }
        ensures figure { LabelFigure }
    {
        let word = u32::from_le_bytes(octets);
        Label {
            dpc: (word % 16_384) as u16,
            opc: (word / 16_384 % 16_384) as u16,
            sls: (word / 268_435_456) as u8,
        }
    }
}

// The four octets of the label: of each code the low 14 bits, of the link selection the low 4.
impl From<Label> for [u8; 4] {
    ghost from_gives = { λ l octets. octets ≡ label_octets l };

    #[tactic(auto, using(crate::proofs::LabelLaws::label_back, crate::proofs::LabelLaws::label_forth))]
    fn from(label: Label) -> [u8; 4]
        ensures value { result ≡ label_octets label }
        ensures reads_back { LabelReadsBack }
        ensures writes_back { LabelWritesBack }
    {
        let word = label.dpc as u32 % 16_384
            + 16_384 * (label.opc as u32 % 16_384)
            + 268_435_456 * (label.sls as u32 % 16);
        word.to_le_bytes()
    }
}
