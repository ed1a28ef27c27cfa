/// Why bytes begin no spelling of a term, or are none.
#[derive(Clone, Copy, Debug, PartialEq, Eq)]
pub enum Why {
    /// The byte is no kind that may stand there.
    Kind,
    /// The bytes end inside the spelling.
    Short,
    /// A name of four bytes that are all zero.
    ZeroName,
    /// The length of a text is above 1,024.
    LongText,
    /// The length of a blob is above 4,096.
    LongBlob,
    /// The count of a tuple is above 32.
    ManyItems,
    /// A term of a level above 8.
    Deep,
    /// The spelling goes on past 8,192 bytes.
    LongMessage,
    /// The spelling ends, and bytes are left.
    Extra,
}
