ghost use Rattle.std.specs.Prelude.{◌≡◌, IfOk, OnErr, OnOk};
ghost use Rattle.outside.specs.Causes.{HasCause};
ghost use Rattle.outside.specs.Tally.{one_more};

use outside::{Draws, Failed};
use rand_core::TryRng;
use term_values::{Nonce, Part};

/// Draws from a source of random bytes, with a count of its errors.
#[derive(Drop)]
pub struct RngDraws<R: TryRng> {
    source: R,
    faults: u64,
}

impl<R: TryRng> RngDraws<R> {
    /// Draws from this source, which has no faults yet. Takes no memory.
    pub fn new(source: R) -> RngDraws<R>
        ensures source { result.source ≡ source }
        ensures faults { result.faults ≡ 0 }
    {
        RngDraws { source, faults: 0 }
    }

    /// Fills the bytes by one call of the source, and counts its error.
    fn fill(&mut self, bytes: &mut [u8]) -> Result<(), Failed>
        ensures filled { OnOk result (R.may_fill self.old.source bytes.new self.new.source) }
        ensures counted { OnErr result (self.new.faults ≡ one_more self.old.faults) }
        ensures stays { OnOk result (self.new.faults ≡ self.old.faults) }
        ensures asked { OnErr result R.Error }
        ensures cause { HasCause self.old.faults self.new.faults result }
    {
        match self.source.try_fill_bytes(bytes) {
            Ok(()) => Ok(()),
            Err(_) => {
                self.faults = self.faults.saturating_add(1);
                Err(Failed)
            }
        }
    }
}

impl<R: TryRng> Draws for RngDraws<R> {
    ghost use Rattle.std.specs.Prelude.{None};

    ghost told = { λ d. None };

    ghost fault_count = { λ d. d.faults };

    fn faults(&self) -> u64 {
        self.faults
    }

    /// The 16 bytes of one fill of the source.
    ///
    /// # Errors
    ///
    /// [`Failed`] where the source answers an error. The count of faults rises then, and stands still after Ok.
    fn nonce(&mut self) -> Result<Nonce, Failed>
        ensures filled { IfOk result (λ nonce. R.may_fill self.old.source nonce self.new.source) }
        ensures counted { OnErr result (self.new.faults ≡ one_more self.old.faults) }
        ensures stays { OnOk result (self.new.faults ≡ self.old.faults) }
        ensures asked { OnErr result R.Error }
        ensures cause { HasCause self.old.faults self.new.faults result }
    {
        let mut bytes = [0; 16];
        self.fill(&mut bytes)?;
        Ok(Nonce(bytes))
    }

    /// The 32 bytes of one fill of the source.
    ///
    /// # Errors
    ///
    /// [`Failed`] where the source answers an error. The count of faults rises then, and stands still after Ok.
    fn part(&mut self) -> Result<Part, Failed>
        ensures filled { IfOk result (λ part. R.may_fill self.old.source part self.new.source) }
        ensures counted { OnErr result (self.new.faults ≡ one_more self.old.faults) }
        ensures stays { OnOk result (self.new.faults ≡ self.old.faults) }
        ensures asked { OnErr result R.Error }
        ensures cause { HasCause self.old.faults self.new.faults result }
    {
        let mut bytes = [0; 32];
        self.fill(&mut bytes)?;
        Ok(Part(bytes))
    }
}
