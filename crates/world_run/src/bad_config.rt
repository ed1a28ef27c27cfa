use std::alloc::{AllocError, AllocFailed};

/// Why no world begins with a configuration.
#[derive(Clone, Copy, Debug, PartialEq, Eq)]
pub enum BadConfig {
    /// A condition on configurations is broken.
    Condition,
    /// Want of memory.
    Memory,
}

impl From<AllocError> for BadConfig {
    ghost use Rattle.world_run.specs.declared.bad_config.BadConfig.TheVariants.{Memory};
    ghost use Rattle.std.specs.Prelude.{◌≡◌};

    ghost from_gives = { λ _ e. e ≡ Memory };

    fn from(_: AllocError) -> BadConfig {
        BadConfig::Memory
    }
}

impl<T: Drop> From<AllocFailed<T>> for BadConfig {
    ghost use Rattle.world_run.specs.declared.bad_config.BadConfig.TheVariants.{Memory};
    ghost use Rattle.std.specs.Prelude.{◌≡◌};

    ghost from_gives = { λ _ e. e ≡ Memory };

    fn from(_: AllocFailed<T>) -> BadConfig {
        BadConfig::Memory
    }
}
