//! How many bytes are hashed for a passphrase, so that it takes a tenth of a second on this machine
//! (GnuPG manual, `s2k-count`). It hashes to measure that once, and keeps the count in a file of the
//! home folder. Begin with `measured_count`.

ghost use Rattle.session_options.specs.Counts.{IsS2kCount};

use crate::kept::{first_line, read_small, write_whole};
use s2k_derive::derive;
use session_options::{MAX_S2K_COUNT, MIN_S2K_COUNT};
use std::alloc::Global;
use std::fs::{File, Files};
use std::rt::Clock;
use std::time::Instant;

/// The thousandths of a second that the count that is kept takes.
const KEPT_THOUSANDTHS: u64 = 100;

/// A machine that is that slow, or is that busy, has no lesser count than this, which is the
/// agent's own default.
const LEAST_MEASURED: u64 = 4_194_304;

/// How many bytes are hashed at a time to measure, and how often. The fastest time counts: the
/// others had other work beside them.
const SAMPLE: u64 = 524_288;

const SAMPLES: u32 = 4;

/// The count that takes so many thousandths of a second. It is measured where the folder has none.
pub fn measured_count<R: Clock + Files<File = File>>(
    rt: &R,
    alloc: Global,
    home: &str,
    thousandths: u64,
) -> u64
    ensures { IsS2kCount result }
{
    scaled(kept_or_measured(rt, alloc, home), thousandths)
}

/// The count of so many thousandths of a second, where this one is that of a tenth.
fn scaled(count: u64, thousandths: u64) -> u64
    ensures { IsS2kCount result }
{
    (count.saturating_mul(thousandths) / KEPT_THOUSANDTHS).clamp(MIN_S2K_COUNT, MAX_S2K_COUNT)
}

fn kept_or_measured<R: Clock + Files<File = File>>(rt: &R, alloc: Global, home: &str) -> u64 {
    let Ok(path) = format!(in alloc; "{home}/s2k-count") else {
        return LEAST_MEASURED;
    };
    if let Some(count) = read_small(rt, alloc, &path).and_then(|kept| kept_count(kept.as_slice())) {
        return count;
    }
    let Some(count) = measure(rt) else {
        return LEAST_MEASURED;
    };
    if let Ok(line) = format!(in alloc; "{count}\n") {
        // Where it can't be kept it is measured again.
        let _ = write_whole(rt, alloc, &path, line.as_bytes());
    }
    count
}

/// The count that a file has: a number of digits, and nothing else but blanks or a comment.
fn kept_count(file: &[u8]) -> Option<u64> {
    let line = first_line(file)?;
    let digits = line.split(|letter| !matches!(letter, '0'..='9')).next()?;
    let rest = line.strip_prefix(digits)?.trim_start_matches([' ', '\t']);
    if !rest.is_empty() && !rest.starts_with('#') {
        return None;
    }
    let count = digits.parse::<u64>().ok()?;
    (MIN_S2K_COUNT..=MAX_S2K_COUNT)
        .contains(&count)
        .then_some(count)
}

/// The count of a tenth of a second, by the time that this program's own hash takes.
fn measure(rt: &impl Clock) -> Option<u64> {
    let mut fastest = None;
    for _ in 0..SAMPLES {
        let Some(micros) = sample(rt) else {
            continue;
        };
        fastest = Some(fastest.map_or(micros, |least: u64| least.min(micros)));
    }
    Some(count_of(fastest?))
}

/// How many millionths of a second the sample takes.
fn sample(rt: &impl Clock) -> Option<u64> {
    let start = Instant::now(rt).ok()?;
    let key = derive(b"a passphrase", b"saltsalt", SAMPLE);
    let took = start.elapsed(rt).ok()?;
    // So that the hash isn't left out.
    let extra = u64::from(key.first().copied().unwrap_or(0) & 1);
    u64::try_from(took.as_micros()).ok()?.checked_add(extra)
}

/// The count of a tenth of a second, where the sample takes so many millionths.
fn count_of(micros: u64) -> u64 {
    let tenth = KEPT_THOUSANDTHS.saturating_mul(1000);
    SAMPLE
        .saturating_mul(tenth)
        .checked_div(micros)
        .unwrap_or(MAX_S2K_COUNT)
        .clamp(LEAST_MEASURED, MAX_S2K_COUNT)
}

#[cfg(test)]
mod tests {
    use super::*;

    #[test]
    fn a_count_is_one_number_in_its_bounds(rt: HostRuntime) {
        for (file, wanted) in [
            (b"100000\n".as_slice(), Some(100_000)),
            (b"100000", Some(100_000)),
            (b"100000 \t# measured\nx", Some(100_000)),
            (b"00100000\n", Some(100_000)),
            (b"65536\n", Some(65_536)),
            (b"65011712\n", Some(65_011_712)),
            (b"", None),
            (b"abc\n", None),
            (b"65535\n", None),
            (b"65011713\n", None),
            (b"99999999999999999999\n", None),
            (b"65536x\n", None),
            (b"100000 1\n", None),
            (b"\n100000\n", None),
            (b"\xff100000\n", None),
        ] {
            assert_eq!(rt; (file, kept_count(file)), (file, wanted));
        }
    }

    #[test]
    fn a_measure_is_scaled_and_bounded(rt: HostRuntime) {
        for (micros, wanted) in [
            (10_000, 5_242_880),
            (2_000, 26_214_400),
            (50_000, 4_194_304),
            (1_000_000, 4_194_304),
            (1, 65_011_712),
            (0, 65_011_712),
        ] {
            assert_eq!(rt; (micros, count_of(micros)), (micros, wanted));
        }
        for (count, thousandths, wanted) in [
            (10_000_000, 100, 10_000_000),
            (10_000_000, 250, 25_000_000),
            (10_000_000, 99_999, 65_011_712),
            (10_000_000, 0, 65_536),
        ] {
            assert_eq!(rt; scaled(count, thousandths), wanted);
        }
    }
}
