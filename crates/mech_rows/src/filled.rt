ghost use Rattle.std.specs.Prelude.{◌≡◌, slice_get};
ghost use Rattle.mech_rows.specs.Table.{fill};

/// The first two, then None.
#[tactic(auto, using(crate::proofs::Filling::fill_two))]
pub(crate) fn two<T: Copy + Drop>(list: &[T]) -> [Option<T>; 2]
    ensures { result ≡ fill 2 list.now }
{
    [at(list, 0), at(list, 1)]
}

/// The first four, then None.
#[tactic(auto, using(crate::proofs::Filling::fill_four))]
pub(crate) fn four<T: Copy + Drop>(list: &[T]) -> [Option<T>; 4]
    ensures { result ≡ fill 4 list.now }
{
    [at(list, 0), at(list, 1), at(list, 2), at(list, 3)]
}

/// The first five, then None.
#[tactic(auto, using(crate::proofs::Filling::fill_five))]
pub(crate) fn five<T: Copy + Drop>(list: &[T]) -> [Option<T>; 5]
    ensures { result ≡ fill 5 list.now }
{
    [
        at(list, 0),
        at(list, 1),
        at(list, 2),
        at(list, 3),
        at(list, 4),
    ]
}

/// The first six, then None.
#[tactic(auto, using(crate::proofs::Filling::fill_six))]
pub(crate) fn six<T: Copy + Drop>(list: &[T]) -> [Option<T>; 6]
    ensures { result ≡ fill 6 list.now }
{
    [
        at(list, 0),
        at(list, 1),
        at(list, 2),
        at(list, 3),
        at(list, 4),
        at(list, 5),
    ]
}

fn at<T: Copy + Drop>(list: &[T], place: usize) -> Option<T>
    ensures { result ≡ slice_get list.now place }
{
    list.get(place).copied()
}
