// The timers: step 9 for TIMER MANAGEMENT, a second that passes, and the envelope of the lowest timer that waits.
#![tactic(auto)]

ghost use Rattle.std.specs.Prelude.{◌≡◌, true, [], ◌++◌, ◌+◌, ◌-◌, ◌≤◌, ◌<◌, length, Ok};
ghost use Rattle.rules.specs.Timers.{timer_count, is_timer, of_day, before_waiting};
ghost use Rattle.rules.specs.Own.{starting_timer, managing_timer};
ghost use Rattle.rules.specs.Written.{envelope_bytes};
ghost use Rattle.rules.specs.TimerCalls.{passing, enveloping};
ghost use Rattle.octets.specs.Parts.{pasted, overlaid};
ghost use Rattle.session.specs.Book.{ledger_size, timer_at};
ghost use Rattle.session.specs.Picture.{Good, view, time_at, time_numbers};
ghost use Rattle.session.specs.Calls.{Answers};
ghost use Rattle.own.specs.Replies.{told};
ghost use Rattle.timers.specs.Ticks.{ticked_at, waits_at};

use octets;
use own::plain;
use responses::{tell_left, tell_result, tell_started};
use rules::{Details, Limits, Refusal, Results, Time};
use session::{Ledger, Session};
use times::{all_digits, is_zero, less_second, of_day, time_bytes, time_in};

// What is done with a timer, by the qualifier's two low bits: a stop, and value 3.
const ACTIONS: u8 = 4;

const STOP: u8 = 1;

const NONE: u8 = 3;

// Nothing is left, and nothing was started.
const NO_TIME: Time = Time {
    hours: 0,
    minutes: 0,
    seconds: 0,
};

// Whether a number is that of a timer.
fn is_timer(n: u8) -> bool
    ensures { result ≡ is_timer n }
{
    if n < 1 {
        return false;
    }
    n as usize <= Ledger::TIMERS
}

// Where the numbers of a timer begin; k counts the timers before it.
fn place_of(k: usize) -> usize
    requires { k < timer_count }
    ensures { result ≡ timer_at k }
{
    Ledger::TIMER * k + Ledger::TIMERS_AT
}

// The time at a place.
fn time_at(ledger: &[u16; Ledger::SIZE], at: usize) -> Time
    requires { at + 3 ≤ ledger_size }
    ensures { result ≡ time_at ledger.now at }
{
    Time {
        hours: ledger[at],
        minutes: ledger[at + 1],
        seconds: ledger[at + 2],
    }
}

// Writes the time at a place.
fn put_time(ledger: &mut [u16; Ledger::SIZE], at: usize, t: Time)
    requires { at + 3 ≤ ledger_size }
    ensures { ledger.new ≡ pasted ledger.old at (time_numbers t) }
{
    ledger[at] = t.hours;
    ledger[at + 1] = t.minutes;
    ledger[at + 2] = t.seconds;
}

// Writes the numbers of a timer: the time left, and the time that it was started with.
fn put_timer(ledger: &mut [u16; Ledger::SIZE], at: usize, left: Time, from: Time)
    requires { at + 6 ≤ ledger_size }
    ensures { ledger.new ≡ pasted ledger.old at (time_numbers left ++ time_numbers from) }
{
    put_time(ledger, at, left);
    put_time(ledger, at + 3, from);
}

// The start of a timer: the timer is 1 to 8, and the time has sound digits, is one of a day and not zero. The pool stays.
pub fn start_timer(
    session: &mut Session,
    n: u8,
    time: &[u8],
    d: Details,
    ignored: bool,
    out: &mut [u8],
) -> usize
    requires { Good session.old × (length time.now ≡ 3) × (255 ≤ length out.old) }
    ensures { Answers (told d (starting_timer (view session.old) n time.now ignored)) session.new.ledger session.new.pool (Ok result) out.old out.new }
{
    if !is_timer(n) {
        return tell_result(out, d, Results::DATA_NOT_UNDERSTOOD);
    }
    if !all_digits(time) {
        return tell_result(out, d, Results::DATA_NOT_UNDERSTOOD);
    }
    let t = time_in(time);
    if !of_day(t) {
        return tell_result(out, d, Results::DATA_NOT_UNDERSTOOD);
    }
    if is_zero(t) {
        return tell_result(out, d, Results::DATA_NOT_UNDERSTOOD);
    }
    put_timer(&mut session.ledger, place_of(n as usize - 1), t, t);
    tell_started(out, d, plain(ignored), n)
}

// A stop or an ask: the time left is told of a timer that runs, and a stop ends it. The pool stays.
pub fn manage_timer(
    session: &mut Session,
    n: u8,
    d: Details,
    ignored: bool,
    out: &mut [u8],
) -> usize
    requires { Good session.old × (255 ≤ length out.old) }
    ensures { Answers (told d (managing_timer (view session.old) d.qualifier n ignored)) session.new.ledger session.new.pool (Ok result) out.old out.new }
{
    let action = d.qualifier % ACTIONS;
    if action == NONE {
        return tell_result(out, d, Results::DATA_NOT_UNDERSTOOD);
    }
    if !is_timer(n) {
        return tell_result(out, d, Results::DATA_NOT_UNDERSTOOD);
    }
    let at = place_of(n as usize - 1);
    let left = time_at(&session.ledger, at);
    if is_zero(left) {
        return tell_result(out, d, Results::TIMER_CONTRADICTION);
    }
    if action == STOP {
        put_timer(&mut session.ledger, at, NO_TIME, NO_TIME);
        return tell_left(out, d, plain(ignored), n, left);
    }
    tell_left(out, d, plain(ignored), n, left)
}

// A second passes for the timer whose numbers begin at a place: one that runs loses it.
fn tick(ledger: &mut [u16; Ledger::SIZE], at: usize)
    requires { at + 3 ≤ ledger_size }
    ensures { ledger.new ≡ ticked_at ledger.old at }
{
    let left = time_at(ledger, at);
    if is_zero(left) {
        return;
    }
    put_time(ledger, at, less_second(left));
}

// A second passes: every timer that runs loses it, and one that comes to zero stops and waits. The pool stays.
pub fn pass_second(session: &mut Session)
    requires { Good session.old }
    ensures { Answers (passing (view session.old)) session.new.ledger session.new.pool (Ok 0) [] [] }
{
    let mut k: usize = 0;
    while k < Ledger::TIMERS {
        tick(&mut session.ledger, place_of(k));
        k += 1;
    }
}

// Whether the timer whose numbers begin at a place waits: it has no time left, and was started.
fn waits(ledger: &[u16; Ledger::SIZE], at: usize) -> bool
    requires { at + 6 ≤ ledger_size }
    ensures { result ≡ waits_at ledger.now at }
{
    if !is_zero(time_at(ledger, at)) {
        return false;
    }
    !is_zero(time_at(ledger, at + 3))
}

// How many timers stand before the first that waits; all where none does.
fn before_waiting(session: &Session) -> usize
    requires { Good session.now }
    ensures { result ≡ before_waiting (view session.now).timers }
{
    let mut i: usize = 0;
    while i < Ledger::TIMERS {
        if waits(&session.ledger, place_of(i)) {
            return i;
        }
        i += 1;
    }
    i
}

// Writes the envelope of a timer, with the time that it was started with.
fn tell_envelope(out: &mut [u8], n: u8, from: Time)
    requires { (14 ≤ length out.old) × (of_day from ≡ true) }
    ensures { out.new ≡ overlaid (envelope_bytes n from) out.old }
{
    let time = time_bytes(from);
    let envelope = [
        0xD7u8, 0x0C, 0x82, 0x02, 0x82, 0x81, 0x24, 0x01, n, 0x25, 0x03, time[0], time[1], time[2],
    ];
    octets::put(out, 0, &envelope);
}

// The envelope of the lowest timer that waits, which then waits no more: R1, R10, or its 14 bytes. The pool stays.
pub fn envelope_in(session: &mut Session, out: &mut [u8]) -> Result<usize, Refusal>
    requires { Good session.old }
    ensures { Answers (enveloping (view session.old) (length out.old)) session.new.ledger session.new.pool result out.old out.new }
{
    if out.len() < Limits::ENVELOPE {
        return Err(Refusal::ShortBuffer);
    }
    let k = before_waiting(session);
    if k == Ledger::TIMERS {
        return Err(Refusal::NoneWaits);
    }
    let place = place_of(k);
    let from = time_at(&session.ledger, place + 3);
    put_timer(&mut session.ledger, place, NO_TIME, NO_TIME);
    tell_envelope(out, (k + 1) as u8, from);
    Ok(Limits::ENVELOPE)
}
