ghost use Rattle.std.specs.Prelude.{◌≡◌, IfSome, IsNone, IsTrue, ◌↔◌, codes};
ghost use Rattle.authctl.specs.Commands.{IsAsked};
ghost use Rattle.authctl.specs.Offline.{IsCommand, IsReplay};
ghost use Rattle.authctl.specs.Words.{word_lists};

use crate::words::{Walk, read_walk};

/// What the words ask for.
#[derive(Clone, Copy, Debug, PartialEq, Eq)]
pub enum Command {
    /// An undisturbed run.
    Walk(Walk),
    /// A script, line by line.
    Replay,
}

fn is_replay_word(word: &[u8]) -> bool
    ensures { IsTrue result ↔ (word.now ≡ codes "replay") }
{
    word == b"replay".as_slice()
}

/// Whether the words ask for the replay of a script.
fn is_replay(words: &[Vec<u8>]) -> bool
    ensures { IsTrue result ↔ IsReplay (word_lists words.now) }
{
    words.len() == 1 && is_replay_word(&words[0])
}

/// What the words ask for; None where they are no command.
pub fn read_command(words: &[Vec<u8>]) -> Option<Command>
    ensures some { IfSome result (IsAsked (word_lists words.now)) }
    ensures none { IsNone result → IsCommand (word_lists words.now) → ⊥ }
{
    if is_replay(words) {
        return Some(Command::Replay);
    }
    match read_walk(words) {
        Some(walk) => Some(Command::Walk(walk)),
        None => None,
    }
}
