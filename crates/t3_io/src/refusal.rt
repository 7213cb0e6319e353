ghost use Rattle.std.specs.Prelude.{◌≡◌};
ghost use Rattle.t3_io.specs.declared.refusal.DeviceRefusal.TheVariants.{NoMemory as Wanting};

use std::alloc::{AllocError, AllocFailed};
use t3_holder::NoMemory;
use thiserror::Error;

/// Why a device didn't do what was asked.
#[derive(Clone, Copy, Debug, PartialEq, Eq, Hash, Error)]
pub enum DeviceRefusal {
    /// The device failed. Only answered where the device's count of faults rose in the call.
    #[error("device fault")]
    Fault,
    /// An allocation was refused.
    #[error("out of memory")]
    NoMemory,
}

impl From<NoMemory> for DeviceRefusal {
    ghost from_gives = { λ _ e. e ≡ Wanting };

    fn from(_error: NoMemory) -> DeviceRefusal {
        DeviceRefusal::NoMemory
    }
}

impl From<AllocError> for DeviceRefusal {
    ghost from_gives = { λ _ e. e ≡ Wanting };

    fn from(_error: AllocError) -> DeviceRefusal {
        DeviceRefusal::NoMemory
    }
}
