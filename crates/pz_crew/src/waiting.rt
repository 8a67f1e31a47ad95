//! How the two ends of a lane wait for each other.

use std::sync::Wait;
use std::thread::Parker;
use std::time::Duration;

/// Gives the recorder's processor away for two milliseconds, or until the bell is rung, as it is where a lane is full. So waiting costs next
/// to nothing.
pub(crate) fn pause<R: Wait>(rt: &R, bell: &Parker) {
    bell.park_timeout(rt, Duration::from_micros(2_000));
}

/// Wakes the recorder, and gives the processor away for a fifth of a millisecond, in which it takes what there is.
pub(crate) fn wait_for_room<R: Wait>(rt: &R, bell: &Parker) {
    bell.unpark();
    Parker::new().park_timeout(rt, Duration::from_micros(200));
}
