/// The same for both families. The two rows are equal but for their tags, and each is known where its
/// family is.
macro_rules! in_both {
    ($family:expr, $work:expr) => {
        match $family {
            text_hooks::Family::Entity => $work,
            text_hooks::Family::Keys => $work,
        }
    };
}

pub(crate) use in_both;
