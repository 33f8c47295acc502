// A line of one of the two kinds, which is a line like either of them.
ghost use Rattle.mezgalt.specs.declared.any_lines.AnyLine.TheVariants.{Cell, Packed};
ghost use Rattle.cell_line.specs.contracts.ring.CellLineLine.TheImpl.Laws.{roomy-law as cell_roomy, fitting-law as cell_fitting};
ghost use Rattle.packed_line.specs.contracts.packing.PackedLineLine.TheImpl.Laws.{roomy-law as packed_roomy, fitting-law as packed_fitting};

use cell_line::CellLine;
use line::{Line, LineRefusal};
use packed_line::PackedLine;

#[derive(Drop)]
pub enum AnyLine {
    Cell(CellLine),
    Packed(PackedLine),
}

impl From<CellLine> for AnyLine {
    fn from(line: CellLine) -> AnyLine {
        AnyLine::Cell(line)
    }
}

impl From<PackedLine> for AnyLine {
    fn from(line: PackedLine) -> AnyLine {
        AnyLine::Packed(line)
    }
}

// Stays: an arm for each kind, since which kind a line has is known only when a script runs.
impl Line for AnyLine {
    ghost waiting = { elim [ Cell l ↦ ⟦<CellLine as Line>⟧.waiting l | Packed l ↦ ⟦<PackedLine as Line>⟧.waiting l ] };

    ghost places = { elim [ Cell l ↦ ⟦<CellLine as Line>⟧.places l | Packed l ↦ ⟦<PackedLine as Line>⟧.places l ] };

    fn put(&mut self, message: &[u8]) -> Result<(), LineRefusal> {
        match self {
            AnyLine::Cell(line) => line.put(message),
            AnyLine::Packed(line) => line.put(message),
        }
    }

    fn take(&mut self, buffer: &mut [u8]) -> Result<usize, LineRefusal> {
        match self {
            AnyLine::Cell(line) => line.take(buffer),
            AnyLine::Packed(line) => line.take(buffer),
        }
    }

    fn places(&self) -> usize {
        match self {
            AnyLine::Cell(line) => line.places(),
            AnyLine::Packed(line) => line.places(),
        }
    }

    ghost roomy = { elim [ Cell l ↦ cell_roomy l | Packed l ↦ packed_roomy l ] };

    ghost fitting = { elim [ Cell l ↦ cell_fitting l | Packed l ↦ packed_fitting l ] };
}
