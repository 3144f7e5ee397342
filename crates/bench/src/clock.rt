//! Times. Where the clock fails, a time is the greatest number, so that no measure ends for it.
use std::time::Instant;

/// Now.
pub fn now(rt: &HostRuntime) -> Option<Instant> {
    Instant::now(rt).ok()
}

/// Nanoseconds since `start`.
pub fn nanos(rt: &HostRuntime, start: Option<Instant>) -> u64 {
    let Some(start) = start else {
        return u64::MAX;
    };
    match start.elapsed(rt) {
        Ok(time) => u64::try_from(time.as_nanos()).unwrap_or(u64::MAX),
        Err(_) => u64::MAX,
    }
}

/// Microseconds since `start`.
pub fn micros(rt: &HostRuntime, start: Option<Instant>) -> u64 {
    nanos(rt, start) / 1000
}

/// Nanoseconds a call, where some calls were made since `start`.
pub fn mean(rt: &HostRuntime, start: Option<Instant>, calls: usize) -> u64 {
    nanos(rt, start) / calls.max(1) as u64
}

/// Takes the nanoseconds a call, where they are the least so far.
pub fn take_least(rt: &HostRuntime, start: Option<Instant>, calls: usize, least: &mut u64) {
    *least = (*least).min(mean(rt, start, calls));
}
