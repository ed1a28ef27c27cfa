ghost use Rattle.std.specs.Prelude.{◌≡◌, ◌≤◌, ◌<◌, ℕ, List, length, IfOk, OnOk};
ghost use Rattle.std.specs.Io.KnownBytes.{IsAtEnd};
ghost use Rattle.outside.specs.Causes.{Rose};
ghost use Rattle.transcript_replay.specs.Told.{IsTold};

use crate::stop::InputFault;
use outside::Source;
use std::alloc::Global;

/// The most bytes of a script.
const BYTES_MAX: usize = 1_048_576;

/// Reads the whole input, or finds it longer than a script may be.
pub(crate) fn read_input<I: Source>(alloc: Global, input: &mut I) -> Result<Vec<u8>, InputFault>
    ensures whole { IfOk result (λ text. IsTold (I.left input.old) text.items) }
    ensures end { OnOk result (IsAtEnd (I.left input.new)) }
    ensures fits { IfOk result (λ text. length text.items ≤ 1_048_576) }
    ensures long { result ≡ Err InputFault.Long → (bytes : List ℕ) × IsTold (I.left input.old) bytes
        × (1_048_576 < length bytes) }
    ensures failed { result ≡ Err InputFault.Failed →
        Rose (I.fault_count input.old) (I.fault_count input.new) }
{
    let mut text = Vec::new(alloc);
    let mut buf = [0; 4096];
    while text.len() <= BYTES_MAX {
        let count = input.read(&mut buf)?;
        if count == 0 {
            return Ok(text);
        }
        text.extend_from_slice(&buf[..count])?;
    }
    Err(InputFault::Long)
}
