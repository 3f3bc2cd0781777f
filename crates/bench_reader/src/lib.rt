// The bench's reader: a response from its one form, or none.
#![tactic(auto)]

ghost use Rattle.std.specs.Prelude.{◌≡◌, ℕ, true, [], ◌%◌, ◌≤◌, length, drop, leb};
ghost use Rattle.rules.specs.declared.Details.{Details};
ghost use Rattle.rules.specs.Bench.{asks_left, error_proper, cause_proper, success_proper, bench_read};
ghost use Rattle.bench_reader.specs.Heard.{result_of, VerdictAt};
ghost use Rattle.bench_reader.specs.Tails.{Tag, Misfit, Holder, Lends, ShownAt, Follows, Hears, checked, resulted, followed, timed, borne, listed};

use objects::{Cursor, Object};
use pool::Pool;
use rules::{
    Action, Causes, ChannelNumber, CommandType, Details, Limits, Link, Results, Time, fits_bearer,
    is_known,
};
use times;

// How many timers there are.
const TIMERS: u8 = 8;

// What follows the result of a response. A bearer and data stand in the bytes that were read, from a place on and so long; statuses from a place on, four bytes each.
#[derive(Clone, Copy)]
pub enum Further {
    Plain,
    Opened {
        number: ChannelNumber,
        link: Link,
        start: usize,
        len: usize,
        grant: u16,
    },
    Received {
        start: usize,
        len: usize,
        left: u8,
    },
    Sent {
        room: u8,
    },
    Started {
        timer: u8,
    },
    Leaves {
        timer: u8,
        left: Time,
    },
    Statuses {
        start: usize,
        count: usize,
    },
}

// The result of a response: an error, a problem with its cause, or done, with what follows.
#[derive(Clone, Copy)]
pub enum Verdict {
    Error(u8),
    Problem(u8),
    Done(u8, Further),
}

// A response that was heard: its details and its result.
#[derive(Clone, Copy)]
pub struct Response {
    pub details: Details,
    pub verdict: Verdict,
}

// The object at a cursor, if it has this tag.
fn object_of(s: &[u8], c: Cursor, tag: u8) -> Option<Object>
    requires { Tag tag }
    ensures { Holder result s.now c.at (tag % 0x80) (leb 0x80 tag) }
{
    let object = c.object(s).ok()?;
    if s[c.at] != tag {
        return None;
    }
    Some(object)
}

// The bytes of the object at a cursor and the cursor behind it, if it has this tag and so many bytes.
fn bytes_of<const N: usize>(s: &[u8], c: Cursor, tag: u8) -> Option<([u8; N], Cursor)>
    requires { Tag tag }
    ensures { Lends result s.now c.at (tag % 0x80) (leb 0x80 tag) N }
{
    let object = object_of(s, c, tag)?;
    let bytes = <[u8; N]>::try_from(&s[object.start..object.next.at]).ok()?;
    Some((bytes, object.next))
}

// Whether a timer is stopped or asked for.
#[tactic(auto, using(rules::proofs::Laws::checks), unfolding(rules::specs::Bench::asks_left, rules::specs::Timers::action_of))]
fn asks_left(d: Details) -> bool
    ensures { result ≡ asks_left d }
{
    d.kind == CommandType::TimerManagement as u8
        && matches!(Action::from(d.qualifier), Action::Stop | Action::Ask)
}

// Whether an error can have these details: 24 a timer stopped or asked for, 30 the types of the table, 31 others, 32 any, 36 those of the table or zeros.
#[tactic(auto, using(rules::proofs::Laws::checks), unfolding(rules::specs::Bench::error_proper, rules::specs::Checks::same, rules::specs::Written::details_bytes))]
fn fits_error(d: Details, e: u8) -> bool
    ensures { result ≡ error_proper d e }
{
    match e {
        Results::TIMER_CONTRADICTION => asks_left(d),
        Results::BEYOND_CAPABILITIES => is_known(d.kind),
        Results::TYPE_NOT_UNDERSTOOD => !is_known(d.kind),
        Results::DATA_NOT_UNDERSTOOD => true,
        Results::VALUES_MISSING => is_known(d.kind) || d == Details::ZEROS,
        _ => false,
    }
}

// Whether a problem of a type can have a cause.
#[tactic(auto, using(crate::proofs::Results::causes), unfolding(rules::specs::Bench::cause_proper, rules::specs::Checks::member, rules::specs::Checks::some_of))]
fn fits_cause(kind: u8, cause: u8) -> bool
    ensures { result ≡ cause_proper kind cause }
{
    let Ok(kind) = CommandType::try_from(kind) else {
        return false;
    };
    match kind {
        CommandType::OpenChannel => matches!(
            cause,
            Causes::NO_CHANNEL | Causes::SIZE_UNAVAILABLE | Causes::LEVEL_UNAVAILABLE
        ),
        CommandType::CloseChannel | CommandType::ReceiveData => cause == Causes::CHANNEL_INVALID,
        CommandType::SendData => matches!(
            cause,
            Causes::CHANNEL_CLOSED | Causes::CHANNEL_INVALID | Causes::SIZE_UNAVAILABLE
        ),
        _ => false,
    }
}

// Whether a command of a type can succeed with a result.
#[tactic(auto, using(rules::proofs::Laws::checks), unfolding(rules::specs::Bench::success_proper))]
fn fits_success(kind: u8, res: u8) -> bool
    ensures { result ≡ success_proper kind res }
{
    match res {
        Results::PERFORMED | Results::PARTLY_UNDERSTOOD => is_known(kind),
        Results::MISSING_INFORMATION => kind == CommandType::ReceiveData as u8,
        Results::MODIFIED => kind == CommandType::OpenChannel as u8,
        _ => false,
    }
}

// The status at a cursor and the cursor behind it: 38 02, the number, 1 to 7, plus 80 if established; then 05 if dropped, else 00.
#[tactic(auto, using(crate::proofs::Rising::shows))]
fn status_at(s: &[u8], c: Cursor) -> Option<(ChannelNumber, Link, Cursor)>
    ensures { ShownAt result s.now c.at }
{
    let ([first, second], next) = bytes_of::<2>(s, c, 0x38)?;
    match (first, second) {
        (0x01..=0x07, 0x00) => Some((ChannelNumber(first), Link::NotYet, next)),
        (0x81..=0x87, 0x00) => Some((ChannelNumber(first - 0x80), Link::Established, next)),
        (0x01..=0x07, 0x05) => Some((ChannelNumber(first), Link::Dropped, next)),
        _ => None,
    }
}

// The response, if the bytes end here.
fn last(s: &[u8], c: Cursor, d: Details, verdict: Verdict) -> Option<Response>
    requires { length s.now ≤ c.at → VerdictAt verdict s.now }
    ensures { Hears (checked true [] (drop c.at s.now) (record { details = d; result = result_of verdict s.now })) s.now result }
{
    if c.at < s.len() {
        return None;
    }
    Some(Response {
        details: d,
        verdict,
    })
}

// Reads the bearer behind the status of an opened channel, type 02 or 03, and its grant, 1 to 1500.
fn read_bearer(s: &[u8], c: Cursor, number: ChannelNumber, link: Link) -> Option<(Further, Cursor)>
    ensures { (d : Details) (x : ℕ) → Follows (borne d x (record { number = number; link = link }) (drop c.at s.now)) d x s.now result }
{
    let object = object_of(s, c, 0x35)?;
    let (bearer, parameters) = s[object.start..object.next.at].split_first()?;
    if !fits_bearer(*bearer, parameters) {
        return None;
    }
    let (pair, end) = bytes_of::<2>(s, object.next, 0x39)?;
    let grant = u16::from_be_bytes(pair);
    if grant < 1 || Pool::GRANT_CAP < grant {
        return None;
    }
    let further = Further::Opened {
        number,
        link,
        start: object.start,
        len: object.len,
        grant,
    };
    Some((further, end))
}

// Reads an answer to OPEN CHANNEL: a status that is not dropped, and what follows.
fn read_opened(s: &[u8], c: Cursor) -> Option<(Further, Cursor)>
    ensures { (d : Details) (x : ℕ) → Follows (followed d 0x40 x (drop c.at s.now)) d x s.now result }
{
    let (number, link, next) = status_at(s, c)?;
    if link == Link::Dropped {
        return None;
    }
    read_bearer(s, next, number, link)
}

// Reads an answer to RECEIVE DATA: at most 237 bytes of data, and the count of bytes still held.
fn read_received(s: &[u8], c: Cursor) -> Option<(Further, Cursor)>
    ensures { (d : Details) (x : ℕ) → Follows (followed d 0x42 x (drop c.at s.now)) d x s.now result }
{
    let data = object_of(s, c, 0x36)?;
    if Limits::DATA < data.len {
        return None;
    }
    let ([left], end) = bytes_of::<1>(s, data.next, 0x37)?;
    let further = Further::Received {
        start: data.start,
        len: data.len,
        left,
    };
    Some((further, end))
}

// Reads an answer to SEND DATA: the room that is left.
fn read_sent(s: &[u8], c: Cursor) -> Option<(Further, Cursor)>
    ensures { (d : Details) (x : ℕ) → Follows (followed d 0x43 x (drop c.at s.now)) d x s.now result }
{
    let ([room], end) = bytes_of::<1>(s, c, 0x37)?;
    Some((Further::Sent { room }, end))
}

// Reads the time that is left of a timer: three bytes of sound digits, from one second up to 23:59:59.
fn read_left(s: &[u8], c: Cursor, timer: u8) -> Option<(Further, Cursor)>
    ensures { (d : Details) (x : ℕ) → Follows (timed d x timer (drop c.at s.now)) d x s.now result }
{
    let (digits, end) = bytes_of::<3>(s, c, 0x25)?;
    if !times::all_digits(&digits) {
        return None;
    }
    let left = times::time_in(&digits);
    if !times::of_day(left) || times::is_zero(left) {
        return None;
    }
    Some((Further::Leaves { timer, left }, end))
}

// Reads an answer to TIMER MANAGEMENT: the timer, 1 to 8, and what is left of one that was stopped or asked for.
fn read_timer(s: &[u8], c: Cursor, d: Details) -> Option<(Further, Cursor)>
    ensures { (x : ℕ) → Follows (followed d 0x27 x (drop c.at s.now)) d x s.now result }
{
    let ([timer], next) = bytes_of::<1>(s, c, 0x24)?;
    if timer < 1 || TIMERS < timer {
        return None;
    }
    match Action::from(d.qualifier) {
        Action::Start => Some((Further::Started { timer }, next)),
        Action::Stop | Action::Ask => read_left(s, next, timer),
        Action::Nothing => None,
    }
}

// Reads statuses that rise, up to the end.
fn read_rising(s: &[u8], c: Cursor) -> Option<(Further, Cursor)>
    requires { c.at ≤ length s.now }
    ensures { (d : Details) (x : ℕ) → Follows (listed d x (drop c.at s.now)) d x s.now result }
{
    let start = c.at;
    let mut here = c;
    let mut count = 0;
    let mut highest = 0;
    while here.at < s.len() {
        let (number, _, next) = status_at(s, here)?;
        if number.0 <= highest {
            return None;
        }
        highest = number.0;
        here = next;
        count += 1;
    }
    Some((Further::Statuses { start, count }, here))
}

// Reads an answer to GET CHANNEL STATUS: statuses, or 00 00 where no channel is open.
fn read_statuses(s: &[u8], c: Cursor) -> Option<(Further, Cursor)>
    ensures { (d : Details) (x : ℕ) → Follows (followed d 0x44 x (drop c.at s.now)) d x s.now result }
{
    let ([first, second], end) = bytes_of::<2>(s, c, 0x38)?;
    if first != 0 || second != 0 {
        return read_rising(s, c);
    }
    let none = Further::Statuses {
        start: end.at,
        count: 0,
    };
    Some((none, end))
}

// Reads what follows the result of a command that succeeded, by its type.
fn read_further(s: &[u8], c: Cursor, d: Details) -> Option<(Further, Cursor)>
    ensures { (x : ℕ) → Follows (followed d d.kind x (drop c.at s.now)) d x s.now result }
{
    let Ok(kind) = CommandType::try_from(d.kind) else {
        return None;
    };
    match kind {
        CommandType::MoreTime | CommandType::SetUpEventList | CommandType::CloseChannel => {
            Some((Further::Plain, c))
        }
        CommandType::TimerManagement => read_timer(s, c, d),
        CommandType::OpenChannel => read_opened(s, c),
        CommandType::ReceiveData => read_received(s, c),
        CommandType::SendData => read_sent(s, c),
        CommandType::GetChannelStatus => read_statuses(s, c),
    }
}

// Reads a result: of one byte, a success and what follows or an error; or 3A and its cause.
#[tactic(auto, using(crate::proofs::Ruling::result_unfit))]
fn read_result(s: &[u8], c: Cursor, d: Details) -> Option<Response>
    ensures { Hears (resulted d (drop c.at s.now)) s.now result }
{
    let object = object_of(s, c, 0x83)?;
    let next = object.next;
    match &s[object.start..next.at] {
        [result] if fits_success(d.kind, *result) => {
            let (further, end) = read_further(s, next, d)?;
            last(s, end, d, Verdict::Done(*result, further))
        }
        [result] if fits_error(d, *result) => last(s, next, d, Verdict::Error(*result)),
        [Results::CHANNEL_PROBLEM, cause] if fits_cause(d.kind, *cause) => {
            last(s, next, d, Verdict::Problem(*cause))
        }
        _ => None,
    }
}

// Reads a response from its one form, or hears none, which is R8: the details, the devices 82 81, and what follows.
pub fn read(s: &[u8]) -> Option<Response>
    ensures { Hears (bench_read s.now) s.now result }
{
    let ([number, kind, qualifier], next) = bytes_of::<3>(s, Cursor { at: 0 }, 0x81)?;
    let ([source, destination], behind) = bytes_of::<2>(s, next, 0x82)?;
    if source != 0x82 || destination != 0x81 {
        return None;
    }
    let d = Details {
        number,
        kind,
        qualifier,
    };
    read_result(s, behind, d)
}
