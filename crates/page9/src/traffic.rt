//! How many exchanges there are a second, as numbers that stand beside a chart.

use crate::html::put_padded;
use text9::Markup;

/// Exchanges in 10^9 seconds.
pub(crate) type Traffic = u128;

/// One exchange a second.
const ONE: Traffic = 1_000_000_000;

/// The round numbers between two powers of ten, in tenths.
const ROUND: [u128; 9] = [10, 15, 20, 30, 40, 50, 60, 80, 100];

/// A round number that is not below this one.
pub(crate) fn round_above(rate: Traffic) -> Traffic {
    let mut round = Traffic::MAX;
    let mut power: u128 = 1;
    for _ in 0..30 {
        for tenths in ROUND {
            let number = power.saturating_mul(tenths) / 10;
            if number >= rate && number < round {
                round = number;
            }
        }
        power = power.saturating_mul(10);
    }
    round
}

/// Puts a number as short as it goes: from 10 on a whole one, from 1 on with one decimal at most, and below with nine at most.
pub(crate) fn put_rate(html: &mut Markup, rate: Traffic) {
    let (unit, places) = if rate >= 10 * ONE {
        (ONE, 0)
    } else if rate >= ONE {
        (ONE / 10, 1)
    } else {
        (1, 9)
    };
    let number = rate.saturating_add(unit / 2).checked_div(unit).unwrap_or(0);
    put_short(html, u64::try_from(number).unwrap_or(u64::MAX), places);
}

/// Puts a number with a point before so many of its last digits, without zeros at the end behind the point.
fn put_short(html: &mut Markup, number: u64, places: u32) {
    let (mut number, mut left) = (number, places);
    for _ in 0..places {
        if number % 10 == 0 {
            number /= 10;
            left = left.saturating_sub(1);
        } else {
            break;
        }
    }
    let power = 10u64.checked_pow(left).unwrap_or(1).max(1);
    html.put_filled("{c}", &[number / power]);
    if left > 0 {
        html.put_mark(".");
        put_padded(html, number % power, left);
    }
}
