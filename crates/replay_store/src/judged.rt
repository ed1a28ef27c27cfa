ghost use Rattle.std.specs.Prelude.{◌≡◌, min};
ghost use Rattle.replay_store.specs.Stamps.{live};
ghost use Rattle.replay_store.specs.Stores.{number_answer, time_answer};

use crate::verdict::Verdict;

/// From so many live times of one sender and tag on, no further time is fit.
const TIME_LIMIT: usize = 4096;

/// A sequence number is late from this far below the greatest on.
const NUMBER_WINDOW: u64 = 64;

/// Whether the window of a time has not passed.
pub(crate) fn is_live(window: u32, now: u64, time: u64) -> bool
    ensures { result ≡ live window now time }
{
    u128::from(now) <= u128::from(time) + u128::from(window)
}

/// The number, or the greatest u32 where it is above that.
fn capped(count: usize) -> u32
    ensures { result ≡ min count 4_294_967_295 }
{
    count.min(u32::MAX as usize) as u32
}

/// What is said of a time, by whether it was accepted and by how many times of its sender and tag are live.
pub(crate) fn judge_time(window: u32, now: u64, time: u64, found: bool, count: usize) -> Verdict
    ensures { result ≡ time_answer window now time found count }
{
    if u128::from(time) > u128::from(now) + u128::from(window) {
        Verdict::Early { at: now }
    } else if !is_live(window, now, time) {
        Verdict::Late { at: now }
    } else if found {
        Verdict::Repeated
    } else if count >= TIME_LIMIT {
        Verdict::StoreFull {
            count: capped(count),
        }
    } else {
        Verdict::Fit
    }
}

/// What is said of a sequence number, by the greatest that was accepted and by whether it was accepted itself.
pub(crate) fn judge_number(greatest: Option<u64>, number: u64, found: bool) -> Verdict
    ensures { result ≡ number_answer greatest number found }
{
    let Some(at) = greatest else {
        return Verdict::Fit;
    };
    if u128::from(number) + u128::from(NUMBER_WINDOW) <= u128::from(at) {
        Verdict::Late { at }
    } else if found {
        Verdict::Repeated
    } else {
        Verdict::Fit
    }
}
