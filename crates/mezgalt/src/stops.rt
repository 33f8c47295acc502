// Why a command was not carried out, or not to its end.
use crate::words::BadLine;
use line::LineRefusal;
use message::ReadFault;
use slots::{CopyRefusal, PieceRefusal, SettingsRefusal};
use std::alloc::AllocError;
use std::io;
use thiserror::Error;

// The script goes on behind a bad line and behind a refusal, and ends where the output or memory fails.
#[derive(Debug, Drop, Error)]
pub enum Stop {
    #[error(transparent)]
    Bad(#[from] BadLine),
    #[error("refused {} at {}: {}", .0.fault.number(), .0.offset, .0.fault)]
    Read(#[from] ReadFault),
    #[error("refused {}: {}", .0.number(), .0)]
    Line(#[from] LineRefusal),
    #[error("refused {}: {}", .0.number(), .0)]
    Settings(#[from] SettingsRefusal),
    #[error("refused {}: {}", .0.number(), .0)]
    Piece(#[from] PieceRefusal),
    #[error("refused {}: {}", .0.number(), .0)]
    Copy(#[from] CopyRefusal),
    #[error(transparent)]
    Output(#[from] io::Error),
    #[error(transparent)]
    Memory(#[from(alloc)] AllocError),
}
