ghost use Rattle.std.specs.Prelude.{◌≡◌, ◌≢◌, ◌⊎◌, ℕ, List, Some, take, true};
ghost use Rattle.std.specs.Io.KnownBytes.{Appends, IsAtEnd};
ghost use Rattle.outside.specs.Causes.{Rose};
ghost use Rattle.agreement_laws.specs.Sound.{IsSound};
ghost use Rattle.agreement_laws.specs.Worlds.{trace};
ghost use Rattle.world_run.specs.Views.{WorldView, entries};
ghost use Rattle.transcript_replay.specs.Runs.{Front, IsWorldOf, Whole, is_over};
ghost use Rattle.transcript_replay.specs.Told.{IsTold};
ghost use Rattle.authctl.specs.Offline.{IsCommand, IsOffline, IsReplay};
ghost use Rattle.authctl.specs.Walks.{walk_output};
ghost use Rattle.authctl.specs.Words.{IsPlan, IsWalk, word_lists};
ghost use Rattle.authctl.specs.declared.words.Walk.{Walk as Plan};

use crate::command::{Command, read_command};
use crate::walk::walk_text;
use crate::words::Walk;
use outside::{PutFault, Sink, Source};
use std::alloc::Global;
use tagged_codec::EncodeFault;
use transcript_replay::replay;

/// All was done.
pub const DONE: u8 = 0;
/// The words are no command.
pub const NO_COMMAND: u8 = 2;
/// A read failed.
pub const READ_FAILED: u8 = 3;
/// A write failed.
pub const WRITE_FAILED: u8 = 4;
/// A line of the script is bad.
pub const BAD_LINE: u8 = 5;
/// The script is too long.
pub const TOO_LONG: u8 = 6;
/// Memory was wanting.
pub const NO_MEMORY: u8 = 7;

/// Writes a whole text and answers the status.
fn write_text<O: Sink>(out: &mut O, text: &[u8]) -> u8
    ensures statuses { (result ≡ 0) ⊎ ((result ≡ 4) ⊎ (result ≡ 7)) }
    ensures whole { result ≡ 0 → Appends (O.put_so_far out.old) (O.put_so_far out.new) text.now }
    ensures front { result ≢ 0 → (n : ℕ) × Appends (O.put_so_far out.old) (O.put_so_far out.new)
        (take n text.now) }
    ensures cause { result ≡ 4 → Rose (O.fault_count out.old) (O.fault_count out.new) }
{
    match out.put(text) {
        Ok(()) => DONE,
        Err(PutFault::Failed) => WRITE_FAILED,
        Err(PutFault::Memory) => NO_MEMORY,
    }
}

/// Writes a walk and answers the status.
fn write_walk<O: Sink>(alloc: Global, walk: &Walk, out: &mut O) -> u8
    requires { IsPlan walk.now }
    ensures statuses { (result ≡ 0) ⊎ ((result ≡ 4) ⊎ (result ≡ 7)) }
    ensures whole { result ≡ 0 → Appends (O.put_so_far out.old) (O.put_so_far out.new)
        (walk_output walk.now) }
    ensures front { result ≢ 0 → (n : ℕ) × Appends (O.put_so_far out.old) (O.put_so_far out.new)
        (take n (walk_output walk.now)) }
    ensures cause { result ≡ 4 → Rose (O.fault_count out.old) (O.fault_count out.new) }
{
    match walk_text(alloc, walk) {
        Ok(text) => write_text(out, &text),
        Err(EncodeFault::Memory) => NO_MEMORY,
        Err(EncodeFault::TooLarge) => unreachable!(),
    }
}

/// The top call for the commands that talk to nobody: `walk MECH A B PART` and `replay`. The words are judged first; then `replay`
/// reads the whole input, and `walk` reads nothing.
///
/// Status 0: the whole output was written. 2: the words are no command, and nothing was written. 3: a read failed, and nothing was
/// written. 4: a write failed, and a front of the output was written. 5: a line of the script is bad; the output of the lines
/// before it was written, and the line that names it. 6: the script has more than 1,048,576 bytes or more than 4,096 lines, and
/// nothing was written. 7: memory was wanting, and a front of the output was written.
pub fn run_offline<I: Source, O: Sink>(
    alloc: Global,
    words: &Vec<Vec<u8>>,
    input: &mut I,
    out: &mut O,
) -> u8
    ensures no_command { result ≡ 2 → IsCommand (word_lists words.now.items) → ⊥ }
    ensures command { result ≢ 2 → IsCommand (word_lists words.now.items) }
    ensures quiet { (result ≡ 2) ⊎ (result ≡ 3) ⊎ (result ≡ 6) → out.new ≡ out.old }

    // What is written and the status are the output of the words and the input.
    ensures whole { result ≢ 2 → result ≢ 3 → result ≢ 4 → result ≢ 7 → (bytes text : List ℕ) × IsTold (I.left input.old) bytes
        × IsOffline (word_lists words.now.items) bytes (Whole result) text × Appends (O.put_so_far out.old) (O.put_so_far out.new) text }

    // A failed write and want of memory leave a front of it.
    ensures cut { (result ≡ 4) ⊎ (result ≡ 7) → (bytes text : List ℕ) × IsTold (I.left input.old) bytes
        × IsOffline (word_lists words.now.items) bytes Front text × Appends (O.put_so_far out.old) (O.put_so_far out.new) text }

    // Where no fault was counted, the status is that of the output of the words and the input, and all of it was written; or memory
    // was wanting.
    ensures complete { (bytes text : List ℕ) (status : ℕ) → I.left input.old ≡ Some bytes → IsOffline (word_lists words.now.items) bytes (Whole status) text
        → (Rose (I.fault_count input.old) (I.fault_count input.new) → ⊥) → (Rose (O.fault_count out.old) (O.fault_count out.new) → ⊥)
        → (result ≡ 7) ⊎ ((result ≡ status) × Appends (O.put_so_far out.old) (O.put_so_far out.new) text) }

    // The world that a script leads to is sound, however much of it was printed.
    ensures sound { (bytes : List ℕ) (w : WorldView) → IsReplay (word_lists words.now.items) →
        IsTold (I.left input.old) bytes → IsWorldOf bytes w →
        IsSound w.config (trace (entries w.acts)) }

    // Of a script that is too long nothing is played.
    ensures over { (bytes : List ℕ) → IsReplay (word_lists words.now.items) →
        I.left input.old ≡ Some bytes → is_over bytes ≡ true →
        ((result ≡ 3) ⊎ (result ≡ 6) ⊎ (result ≡ 7)) × (out.new ≡ out.old) }
    ensures at_end { IsReplay (word_lists words.now.items) → (result ≡ 0) ⊎ (result ≡ 5) →
        IsAtEnd (I.left input.new) }
    ensures unread { (IsReplay (word_lists words.now.items) → ⊥) → input.new ≡ input.old }

    ensures read_failed { result ≡ 3 → Rose (I.fault_count input.old) (I.fault_count input.new) }
    ensures write_failed { result ≡ 4 → Rose (O.fault_count out.old) (O.fault_count out.new) }
{
    match read_command(words) {
        None => NO_COMMAND,
        Some(Command::Replay) => replay(alloc, input, out),
        Some(Command::Walk(walk)) => write_walk(alloc, &walk, out),
    }
}

/// Words are those of one walk at most, so the output is one.
pub fn words_tell_one_walk()
    ensures one { (words : List (List ℕ)) → (v : Plan) → (w : Plan) → IsWalk words v →
        IsWalk words w → v ≡ w }
{}
