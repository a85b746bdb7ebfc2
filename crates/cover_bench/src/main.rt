// Times the cover of windows of 120, 160 and 4,096 figures: `cover_bench times`.
// With no argument it prints the covers alone, which do not change from run to run.
#![tactic(auto)]

use figure::{Figure, Ratio, Yen, cover};
use std::alloc::{AllocError, Global};
use std::time::Instant;
use std::{env, io, iter};

const CALLS: u32 = 200;

/// The next of a row of numbers that look random.
fn scramble(seed: u32) -> u32 {
    seed.wrapping_mul(1_664_525).wrapping_add(1_013_904_223)
}

/// A window of figures made of numbers that look random.
fn scattered<F: Drop, M: FnMut(u32) -> Option<F>>(
    heap: Global,
    size: usize,
    make: M,
) -> Result<Vec<F>, AllocError>
    requires { (m : _) (seed : _) → M.pre m seed }
{
    iter::successors(Some(scramble(2009)), |seed| Some(scramble(*seed)))
        .take(size)
        .filter_map(make)
        .collect(heap)
}

fn yen(seed: u32) -> Option<Yen> {
    Some(Yen {
        value: i64::from(seed >> 8) - 8_000_000,
    })
}

/// A ratio as the moves of a price between 1,001 and 1,256 yen are.
fn ratio(seed: u32) -> Option<Ratio> {
    Ratio::new(u64::from(seed >> 26), 1001 + u64::from(seed >> 8 & 255))
}

fn rising_yen(heap: Global, size: usize) -> Result<Vec<Yen>, AllocError> {
    (0..).take(size).map(|value| Yen { value }).collect(heap)
}

/// Prints the cover at 99 percent and, if times are wanted, how long a cover takes on the average.
/// The counts are added up and printed, so that no call can be left out.
fn measure<F: Figure>(rt: &HostRuntime, times: bool, name: &str, window: &[F]) -> io::Result<()> {
    let size = window.len();
    let answer = cover(window, 99);
    println!(rt; "{size} {name}: {answer:?}")?;
    if times {
        let start = Instant::now(rt)?;
        let mut counted = 0usize;
        for call in 0..CALLS {
            if let Ok(Some((_, count))) = cover(window, 90 + call % 10) {
                counted = counted.wrapping_add(count);
            }
        }
        let nanos = start.elapsed(rt)?.as_nanos() / u128::from(CALLS);
        println!(rt; "    {nanos} ns a call at 90 to 99 percent, {counted} counted")?;
    }
    Ok(())
}

fn main(rt: HostRuntime) -> io::Result<()> {
    let heap = rt.alloc();
    let times = env::args(&rt)?.nth(1).is_some();
    for size in [120, 160, 4096] {
        measure(
            &rt,
            times,
            "scattered yen",
            scattered(heap, size, yen)?.as_slice(),
        )?;
        measure(&rt, times, "rising yen", rising_yen(heap, size)?.as_slice())?;
        measure(
            &rt,
            times,
            "scattered ratios",
            scattered(heap, size, ratio)?.as_slice(),
        )?;
    }
    Ok(())
}
