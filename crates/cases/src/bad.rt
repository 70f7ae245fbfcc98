ghost use Rattle.std.specs.Prelude.{◌≡◌};
ghost use Rattle.cases.specs.declared.bad.Bad.TheVariants.{NoMemory};

use std::alloc::{AllocError, AllocFailed};

// Why a line is not run.
#[derive(Clone, Copy)]
pub enum Bad {
    // it is no case
    NoCase,
    NoMemory,
}

impl<T: Drop> From<AllocFailed<T>> for Bad {
    ghost from_gives = { λ refused bad. bad ≡ NoMemory };

    fn from(_refused: AllocFailed<T>) -> Bad {
        Bad::NoMemory
    }
}

impl From<AllocError> for Bad {
    ghost from_gives = { λ refused bad. bad ≡ NoMemory };

    fn from(_refused: AllocError) -> Bad {
        Bad::NoMemory
    }
}
