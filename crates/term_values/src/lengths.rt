ghost use Rattle.std.specs.Prelude.{◌+◌, length};
ghost use Rattle.term_values.specs.Lengths.{IsLeft, length_of_key};

use crate::small::Key;

/// What is left of so many bytes after a kind, two bytes of length and these bytes.
pub(crate) fn left_by(most: u32, bytes: &[u8]) -> Option<u32>
    ensures left { IsLeft most (length bytes.now + 3) result }
{
    let len = u32::try_from(bytes.len()).ok()?;
    most.checked_sub(3)?.checked_sub(len)
}

/// What is left of so many bytes after a key.
pub(crate) fn left_by_key(most: u32, key: &Key) -> Option<u32>
    ensures left { IsLeft most (length_of_key key.now) result }
{
    match key {
        Key::One(_) => most.checked_sub(33),
        Key::Two(_, _) => most.checked_sub(65),
    }
}
