//! The times and the numbers that options name.
ghost use Rattle.std.specs.Prelude.{◌≡◌, ◌<◌, ◌*◌, ◌^◌, IfSome};
ghost use Rattle.words9.specs.Values.{clock, count_of, decimals_of, parts_at, seconds_of, sixtieth_of, time_of, whole_of};

/// The most digits of whole seconds, or of the hours of a clock.
const MOST_DIGITS: usize = 9;

/// The time that a word names, in microseconds: a number of seconds, or hours, minutes and seconds with colons between, each with
/// at most six decimals or without. The hours may go on past 23, as a capture's clock does.
pub(crate) fn read_time(word: &str) -> Option<u64>
    ensures { result ≡ time_of word.now }
{
    match word.split_once('.') {
        Some((whole, decimals)) => {
            let seconds = read_seconds(whole)?;
            Some(seconds * 1_000_000 + read_decimals(decimals)?)
        }
        None => Some(read_seconds(word)? * 1_000_000),
    }
}

/// The seconds that a word without decimals names: a number, or a clock.
fn read_seconds(word: &str) -> Option<u64>
    ensures seconds { result ≡ seconds_of (parts_at 58 word.now) }
    ensures low { IfSome result (λ seconds. seconds < 10 ^ 13) }
{
    let Some((hours, rest)) = word.split_once(':') else {
        return read_whole(word);
    };
    let (minutes, seconds) = rest.split_once(':')?;
    read_clock(hours, minutes, seconds)
}

/// The seconds of a clock with these hours, minutes and seconds.
fn read_clock(hours: &str, minutes: &str, seconds: &str) -> Option<u64>
    ensures seconds { result ≡ clock (whole_of hours.now) (sixtieth_of minutes.now) (sixtieth_of seconds.now) }
    ensures low { IfSome result (λ seconds. seconds < 10 ^ 13) }
{
    let hours = read_whole(hours)?;
    let minutes = read_sixtieth(minutes)?;
    let seconds = read_sixtieth(seconds)?;
    Some(hours * 3600 + minutes * 60 + seconds)
}

/// Whole seconds, or the hours of a clock: one to nine digits.
fn read_whole(digits: &str) -> Option<u64>
    ensures number { result ≡ whole_of digits.now }
    ensures low { IfSome result (λ number. number < 10 ^ 9) }
{
    if digits.len() > MOST_DIGITS {
        return None;
    }
    Some(u64::from(read_count(digits)?))
}

/// The minutes or the seconds of a clock: two digits, below 60.
fn read_sixtieth(digits: &str) -> Option<u64>
    ensures number { result ≡ sixtieth_of digits.now }
    ensures low { IfSome result (λ number. number < 60) }
{
    let number = read_count(digits)?;
    if digits.len() == 2 && number < 60 {
        Some(u64::from(number))
    } else {
        None
    }
}

/// The microseconds that one to six decimals name.
fn read_decimals(digits: &str) -> Option<u64>
    ensures number { result ≡ decimals_of digits.now }
    ensures low { IfSome result (λ number. number < 100000 * 2 ^ 32) }
{
    let number = u64::from(read_count(digits)?);
    match digits.len() {
        1 => Some(number * 100_000),
        2 => Some(number * 10_000),
        3 => Some(number * 1_000),
        4 => Some(number * 100),
        5 => Some(number * 10),
        6 => Some(number),
        _ => None,
    }
}

/// The number that digits name, where it has 32 bits at most.
pub(crate) fn read_count(word: &str) -> Option<u32>
    ensures { result ≡ count_of 0 word.now }
{
    // `parse` alone would read a number behind a plus.
    if word.starts_with('+') {
        return None;
    }
    word.parse().ok()
}
