ghost use Rattle.std.specs.Prelude.{IsTrue, ◌↔◌, ◌≡◌, ◌⊎◌, codes};
ghost use Rattle.authctl.specs.Online.{IsOnline};
ghost use Rattle.authctl.specs.Words.{word_lists};

/// Whether a word names a command that talks to others.
fn is_online_word(word: &[u8]) -> bool
    ensures online { IsTrue result ↔ ((word.now ≡ codes "serve") ⊎ (word.now ≡ codes "connect")) }
{
    word == b"serve".as_slice() || word == b"connect".as_slice()
}

/// Whether the first word is `serve` or `connect`. It takes no memory.
pub fn is_online(words: &Vec<Vec<u8>>) -> bool
    ensures online { IsTrue result ↔ IsOnline (word_lists words.now.items) }
{
    if words.is_empty() {
        return false;
    }
    is_online_word(&words[0])
}
