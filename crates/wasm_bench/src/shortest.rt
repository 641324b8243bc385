//! The shortest time of a call.

use std::rt::Clock;
use std::time::{Duration, Instant};

/// Prints the shortest time of so many calls, each of which must answer; nothing where there are no calls.
pub(crate) fn tell_shortest<R: Print + Clock, T: Drop, F: FnMut() -> Option<T>>(
    rt: &R,
    times: u32,
    run: F,
) -> Option<()>
    requires { F.IsAlwaysCallable run }
{
    if times == 0 {
        return Some(());
    }
    let shortest = shortest_time(rt, times, run)?;
    println!(rt; "{} ns", shortest.as_nanos()).ok()
}

fn shortest_time<R: Clock, T: Drop, F: FnMut() -> Option<T>>(
    rt: &R,
    times: u32,
    mut run: F,
) -> Option<Duration>
    requires { F.IsAlwaysCallable run }
{
    let mut shortest = Duration::MAX;
    for _ in 0..times {
        let start = Instant::now(rt).ok()?;
        let answer = run();
        let taken = start.elapsed(rt).ok()?;
        answer?;
        shortest = shortest.min(taken);
    }
    Some(shortest)
}
