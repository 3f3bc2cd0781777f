// Numbers as swapped digits, and the times of timers.
#![tactic(auto)]

ghost use Rattle.std.specs.Prelude.{◌≡◌, true, false, ◌≤◌, ◌<◌, length};
ghost use Rattle.rules.specs.Checks.{every};
ghost use Rattle.rules.specs.Timers.{swapped, unswapped, is_digits, time_in, time_bytes, of_day, is_zero, less_second};

use rules::Time;

// A number as swapped digits: its tens in the low half of the byte, its units in the high half.
#[tactic(auto, unfolding(rules::specs::Timers::swapped))]
pub fn swap(n: u16) -> u8
    requires { n < 100 }
    ensures { result ≡ swapped n }
{
    (16 * (n % 10) + n / 10) as u8
}

// The number of swapped digits.
#[tactic(auto, unfolding(rules::specs::Timers::unswapped))]
pub fn unswap(b: u8) -> u16
    ensures { result ≡ unswapped b }
{
    let digits = u16::from(b);
    10 * (digits % 16) + digits / 16
}

// Whether both halves of a byte are digits.
#[tactic(auto, unfolding(rules::specs::Timers::is_digits))]
pub fn is_digits(b: u8) -> bool
    ensures { result ≡ is_digits b }
{
    b % 16 < 10 && b / 16 < 10
}

// Whether all bytes are digits.
pub fn all_digits(bytes: &[u8]) -> bool
    ensures { result ≡ every is_digits bytes.now }
{
    bytes.iter().all(|b| is_digits(*b))
}

// The time in three bytes: hours, minutes and seconds.
#[tactic(auto, unfolding(rules::specs::Timers::time_in))]
pub fn time_in(bytes: &[u8]) -> Time
    requires { 3 ≤ length bytes.now }
    ensures { result ≡ time_in bytes.now }
{
    Time {
        hours: unswap(bytes[0]),
        minutes: unswap(bytes[1]),
        seconds: unswap(bytes[2]),
    }
}

// The three bytes of a time.
#[tactic(auto, using(rules::proofs::Timers::of_day_lem), unfolding(rules::specs::Timers::time_bytes))]
pub fn time_bytes(t: Time) -> [u8; 3]
    requires { of_day t ≡ true }
    ensures { result ≡ time_bytes t }
{
    [swap(t.hours), swap(t.minutes), swap(t.seconds)]
}

// Whether a time is one of a day: hours up to 23, minutes and seconds up to 59.
#[tactic(auto, unfolding(rules::specs::Timers::of_day))]
pub fn of_day(t: Time) -> bool
    ensures { result ≡ of_day t }
{
    t.hours <= 23 && t.minutes <= 59 && t.seconds <= 59
}

// Whether nothing is left of a time.
#[tactic(auto, unfolding(rules::specs::Timers::is_zero))]
pub fn is_zero(t: Time) -> bool
    ensures { result ≡ is_zero t }
{
    // Kept: a pattern, of which the compiler makes one test. Of eight idle timers a second costs 50 instructions so in the tool `calls`, and 96 by three tests with `&&`; of eight running ones, from C, 140 and 124.
    matches!((t.hours, t.minutes, t.seconds), (0, 0, 0))
}

// A second less than a time that is not zero.
#[tactic(auto, using(rules::proofs::Laws::checks), unfolding(rules::specs::Timers::is_zero, rules::specs::Timers::less_second))]
pub fn less_second(t: Time) -> Time
    requires { is_zero t ≡ false }
    ensures { result ≡ less_second t }
{
    if t.seconds > 0 {
        return Time {
            seconds: t.seconds - 1,
            ..t
        };
    }
    if t.minutes > 0 {
        return Time {
            minutes: t.minutes - 1,
            seconds: 59,
            ..t
        };
    }
    Time {
        hours: t.hours - 1,
        minutes: 59,
        seconds: 59,
    }
}
