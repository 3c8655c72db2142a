//! Why a line ended a run.

ghost use Rattle.std.specs.Prelude.{◌≡◌};
ghost use Rattle.std.specs.IoError.{error_kind};
ghost use Rattle.std.specs.declared.io.ErrorKind.TheVariants.{OutOfMemory};
ghost use Rattle.auth_store.specs.declared.script.end.End.TheVariants as ends;

use std::alloc::{AllocError, AllocFailed};
use std::io;
use std::io::ErrorKind;

/// Why a line ended the run.
#[derive(Debug, Drop)]
pub(crate) enum End {
    BadLine,
    Memory,
    Io,
}

impl From<AllocError> for End {
    ghost from_gives = { λ _ e. e ≡ ends.Memory };

    fn from(_e: AllocError) -> End {
        End::Memory
    }
}

impl<T: Drop> From<AllocFailed<T>> for End {
    ghost from_gives = { λ _ e. e ≡ ends.Memory };

    fn from(_e: AllocFailed<T>) -> End {
        End::Memory
    }
}

impl From<io::Error> for End {
    ghost from_gives = { λ e end. (error_kind e ≡ OutOfMemory → end ≡ ends.Memory)
        × ((error_kind e ≡ OutOfMemory → ⊥) → end ≡ ends.Io) };

    fn from(e: io::Error) -> End {
        match e.kind() {
            ErrorKind::OutOfMemory => End::Memory,
            _ => End::Io,
        }
    }
}
