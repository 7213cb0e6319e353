//! Why a run couldn't be carried out whole.
ghost use Rattle.std.specs.Prelude.{◌≡◌};
ghost use Rattle.t3_run.specs.Cause.{depot_refusal, console_refusal};
ghost use Rattle.t3_run.specs.declared.refusal.RunRefusal.TheVariants.{NoMemory as Wanting};

use std::alloc::AllocError;
use t3_holder::NoMemory;
use t3_io::DeviceRefusal;
use thiserror::Error;

/// Why a run was cut short.
#[derive(Clone, Copy, Debug, PartialEq, Eq, Error)]
pub enum RunRefusal {
    /// The depot failed. Only answered where its count of faults rose in the call.
    #[error("files failed")]
    DepotFault,
    /// The console failed. Only answered where its count of faults rose in the call.
    #[error("console failed")]
    ConsoleFault,
    /// An allocation was refused.
    #[error("out of memory")]
    NoMemory,
}

impl RunRefusal {
    /// What a depot's refusal is told as.
    pub(crate) fn of_depot(refusal: DeviceRefusal) -> RunRefusal
        ensures { result ≡ depot_refusal refusal }
    {
        match refusal {
            DeviceRefusal::Fault => RunRefusal::DepotFault,
            DeviceRefusal::NoMemory => RunRefusal::NoMemory,
        }
    }

    /// What a console's refusal is told as.
    pub(crate) fn of_console(refusal: DeviceRefusal) -> RunRefusal
        ensures { result ≡ console_refusal refusal }
    {
        match refusal {
            DeviceRefusal::Fault => RunRefusal::ConsoleFault,
            DeviceRefusal::NoMemory => RunRefusal::NoMemory,
        }
    }
}

impl From<NoMemory> for RunRefusal {
    ghost from_gives = { λ _ e. e ≡ Wanting };

    fn from(_error: NoMemory) -> RunRefusal {
        RunRefusal::NoMemory
    }
}

impl From<AllocError> for RunRefusal {
    ghost from_gives = { λ _ e. e ≡ Wanting };

    fn from(_error: AllocError) -> RunRefusal {
        RunRefusal::NoMemory
    }
}
