ghost use Rattle.std.specs.Prelude.{◌≡◌, ◌⊎◌, ℕ, List, Some, true};
ghost use Rattle.std.specs.Io.KnownBytes.{Appends, IsAtEnd};
ghost use Rattle.outside.specs.Causes.{Rose};
ghost use Rattle.agreement_laws.specs.Sound.{IsSound};
ghost use Rattle.agreement_laws.specs.Worlds.{trace};
ghost use Rattle.world_run.specs.Views.{WorldView, entries};
ghost use Rattle.transcript_replay.specs.Runs.{Front, IsOutput, IsWorldOf, Whole, is_over};
ghost use Rattle.transcript_replay.specs.Told.{IsTold};

use crate::cut::count_lines;
use crate::input::read_input;
use crate::play::play;
use crate::stop::{InputFault, Stop};
use outside::{Sink, Source};
use std::alloc::Global;

/// The most lines of a script.
const LINES_MAX: usize = 4096;

/// Reads the whole input, then plays it, and answers a status.
fn read_and_play<I: Source, O: Sink>(alloc: Global, input: &mut I, out: &mut O) -> u8
    ensures statuses { (result ≡ 0) ⊎ (result ≡ 3) ⊎ (result ≡ 4) ⊎ (result ≡ 5) ⊎ (result ≡ 6)
        ⊎ (result ≡ 7) }
    ensures whole { (result ≡ 3 → ⊥) → (result ≡ 4 → ⊥) → (result ≡ 7 → ⊥) → (bytes text : List ℕ) × IsTold (I.left input.old) bytes
        × IsOutput bytes (Whole result) text × Appends (O.put_so_far out.old) (O.put_so_far out.new) text }
    ensures cut { (result ≡ 4) ⊎ (result ≡ 7) → (bytes text : List ℕ) × IsTold (I.left input.old) bytes
        × IsOutput bytes Front text × Appends (O.put_so_far out.old) (O.put_so_far out.new) text }
    ensures at_end { (result ≡ 0) ⊎ (result ≡ 5) → IsAtEnd (I.left input.new) }
    ensures quiet { (result ≡ 3) ⊎ (result ≡ 6) → out.new ≡ out.old }
    ensures over { (bytes : List ℕ) → I.left input.old ≡ Some bytes → is_over bytes ≡ true →
        ((result ≡ 3) ⊎ (result ≡ 6) ⊎ (result ≡ 7)) × (out.new ≡ out.old) }
    ensures read_failed { result ≡ 3 → Rose (I.fault_count input.old) (I.fault_count input.new) }
    ensures write_failed { result ≡ 4 → Rose (O.fault_count out.old) (O.fault_count out.new) }
{
    let text = match read_input(alloc, input) {
        Ok(text) => text,
        Err(InputFault::Failed) => return 3,
        Err(InputFault::Long) => return 6,
        Err(InputFault::Memory) => return 7,
    };
    if count_lines(&text) > LINES_MAX {
        return 6;
    }
    match play(alloc, &text, out) {
        Ok(()) => 0,
        Err(Stop::Bad) => 5,
        Err(Stop::Failed) => 4,
        Err(Stop::Memory) => 7,
    }
}

/// Replays the script that the input holds, line by line, and answers a status. The whole input is read first.
///
/// Status 0: the whole output was written. 3: a read failed, and nothing was written. 4: a write failed, and a front of the
/// output was written. 5: a line is bad; the output of the lines before it was written, and the line that names it. 6: the
/// input has more than 1,048,576 bytes or more than 4,096 lines, and nothing was written. 7: memory was wanting, and a front of
/// the output was written.
pub fn replay<I: Source, O: Sink>(alloc: Global, input: &mut I, out: &mut O) -> u8
    ensures statuses { (result ≡ 0) ⊎ (result ≡ 3) ⊎ (result ≡ 4) ⊎ (result ≡ 5) ⊎ (result ≡ 6)
        ⊎ (result ≡ 7) }

    // What is written and the status are an output of the input.
    ensures whole { (result ≡ 3 → ⊥) → (result ≡ 4 → ⊥) → (result ≡ 7 → ⊥) → (bytes text : List ℕ) × IsTold (I.left input.old) bytes
        × IsOutput bytes (Whole result) text × Appends (O.put_so_far out.old) (O.put_so_far out.new) text }

    // A failed write and want of memory leave a front of it.
    ensures cut { (result ≡ 4) ⊎ (result ≡ 7) → (bytes text : List ℕ) × IsTold (I.left input.old) bytes
        × IsOutput bytes Front text × Appends (O.put_so_far out.old) (O.put_so_far out.new) text }

    // Where no fault was counted, the status is that of the input's output, and all of it was written; or memory was wanting.
    ensures complete { (bytes text : List ℕ) (status : ℕ) → I.left input.old ≡ Some bytes → IsOutput bytes (Whole status) text
        → (Rose (I.fault_count input.old) (I.fault_count input.new) → ⊥) → (Rose (O.fault_count out.old) (O.fault_count out.new) → ⊥)
        → (result ≡ 7) ⊎ ((result ≡ status) × Appends (O.put_so_far out.old) (O.put_so_far out.new) text) }

    // The world that the input leads to is sound, however much of it was printed.
    ensures sound { (bytes : List ℕ) (w : WorldView) → IsTold (I.left input.old) bytes →
        IsWorldOf bytes w → IsSound w.config (trace (entries w.acts)) }

    // The whole input was read.
    ensures at_end { (result ≡ 0) ⊎ (result ≡ 5) → IsAtEnd (I.left input.new) }
    ensures quiet { (result ≡ 3) ⊎ (result ≡ 6) → out.new ≡ out.old }

    // Of an input that is too long nothing is played.
    ensures over { (bytes : List ℕ) → I.left input.old ≡ Some bytes → is_over bytes ≡ true →
        ((result ≡ 3) ⊎ (result ≡ 6) ⊎ (result ≡ 7)) × (out.new ≡ out.old) }

    ensures read_failed { result ≡ 3 → Rose (I.fault_count input.old) (I.fault_count input.new) }
    ensures write_failed { result ≡ 4 → Rose (O.fault_count out.old) (O.fault_count out.new) }
{
    read_and_play(alloc, input, out)
}
