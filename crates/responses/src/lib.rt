// The responses, written straight into the buffer that the host lends.
#![tactic(auto)]

ghost use Rattle.std.specs.Prelude.{◌≡◌, true, ◌+◌, ◌-◌, ◌≤◌, ◌<◌, [], ◌∷◌, ◌++◌, length};
ghost use Rattle.octets.specs.Parts.{part, pasted};
ghost use Rattle.rules.specs.Frames.{object_bytes};
ghost use Rattle.rules.specs.Reading.{bearer_in};
ghost use Rattle.rules.specs.Own.{error, problem, done, opened, received, sent, started, leaves, statuses, reports};
ghost use Rattle.rules.specs.Timers.{of_day};
ghost use Rattle.rules.specs.Written.{status_bytes, status_object};
ghost use Rattle.session.specs.Book.{ledger_size};
ghost use Rattle.session.specs.Picture.{link_of};
ghost use Rattle.responses.specs.Filled.{head_bytes, response, Filled, statuses_in};

use objects;
use octets;
use rules::{ChannelNumber, Details, Link, Results, Time};
use session::{Ledger, entry, link_of};
use times::time_bytes;

// The tags of the objects behind a result: a timer, a time, a bearer, data, a count, a status and a grant.
const TIMER: u8 = 0x24;

const TIME: u8 = 0x25;

const BEARER: u8 = 0x35;

const DATA: u8 = 0x36;

const COUNT: u8 = 0x37;

const STATUS: u8 = 0x38;

const GRANT: u8 = 0x39;

// Writes bytes from a place on, and tells the place behind them.
fn append(out: &mut [u8], at: usize, bytes: &[u8]) -> usize
    requires { at + length bytes.now ≤ length out.old }
    ensures out_after { out.new ≡ pasted out.old at bytes.now }
    ensures value { result ≡ at + length bytes.now }
{
    octets::put(out, at, bytes);
    at + bytes.len()
}

// Writes the details, the devices and the bytes of a result, and tells the count of bytes.
fn tell_head(out: &mut [u8], d: Details, bytes: &[u8]) -> usize
    requires { (length bytes.now < 128) × (11 + length bytes.now ≤ length out.old) }
    ensures { Filled (head_bytes d bytes.now) result out.old out.new }
{
    // Kept: the cast, since the clause bounds the length, and `try_from` would have an arm that nothing reaches.
    let front = [
        0x81,
        0x03,
        d.number,
        d.kind,
        d.qualifier,
        0x82,
        0x02,
        0x82,
        0x81,
        0x83,
        bytes.len() as u8,
    ];
    let at = append(out, 0, &front);
    append(out, at, bytes)
}

// Writes a result that nothing follows, and tells the count of bytes.
#[tactic(auto, using(crate::proofs::Writes::error_is))]
pub fn tell_result(out: &mut [u8], d: Details, res: u8) -> usize
    requires { 12 ≤ length out.old }
    ensures { Filled (response d (error res)) result out.old out.new }
{
    tell_head(out, d, &[res])
}

// Writes the result 3A with its cause, and tells the count of bytes.
#[tactic(auto, using(crate::proofs::Writes::problem_is))]
pub fn tell_problem(out: &mut [u8], d: Details, cause: u8) -> usize
    requires { 13 ≤ length out.old }
    ensures { Filled (response d (problem cause)) result out.old out.new }
{
    tell_head(out, d, &[Results::CHANNEL_PROBLEM, cause])
}

// Writes a result and an object of one byte behind it, and tells the count of bytes.
fn tell_byte(out: &mut [u8], d: Details, res: u8, tag: u8, value: u8) -> usize
    requires { 15 ≤ length out.old }
    ensures { Filled (response d (error res) ++ (tag ∷ 0x01 ∷ value ∷ [])) result out.old out.new }
{
    let at = tell_result(out, d, res);
    append(out, at, &[tag, 0x01, value])
}

// Writes the answer to SEND DATA: a result and the room that is left.
#[tactic(auto, using(crate::proofs::Writes::sent_is))]
pub fn tell_sent(out: &mut [u8], d: Details, res: u8, room: u8) -> usize
    requires { 15 ≤ length out.old }
    ensures { Filled (response d (done res (sent room))) result out.old out.new }
{
    tell_byte(out, d, res, COUNT, room)
}

// Writes the answer to the start of a timer: a result and the timer.
#[tactic(auto, using(crate::proofs::Writes::started_is))]
pub fn tell_started(out: &mut [u8], d: Details, res: u8, n: u8) -> usize
    requires { 15 ≤ length out.old }
    ensures { Filled (response d (done res (started n))) result out.old out.new }
{
    tell_byte(out, d, res, TIMER, n)
}

// Writes the answer to a stop or an ask: a result, the timer and the time left.
pub fn tell_left(out: &mut [u8], d: Details, res: u8, n: u8, left: Time) -> usize
    requires { (20 ≤ length out.old) × (of_day left ≡ true) }
    ensures { Filled (response d (done res (leaves n left))) result out.old out.new }
{
    let at = tell_result(out, d, res);
    let [hours, minutes, seconds] = time_bytes(left);
    let further = [TIMER, 0x01, n, TIME, 0x03, hours, minutes, seconds];
    append(out, at, &further)
}

// Writes the answer to RECEIVE DATA: a result, bytes straight from the pool, and the count of those left.
pub fn tell_received(
    out: &mut [u8],
    d: Details,
    res: u8,
    pool: &[u8],
    from: usize,
    count: u8,
    left: u8,
) -> usize
    requires { (18 + count ≤ length out.old) × (from + count ≤ length pool.now) }
    ensures { Filled (response d (done res (received (part from (from + count) pool.now) left))) result out.old out.new }
{
    let head = tell_result(out, d, res);
    let at = objects::write_length(out, head, DATA, count);
    let behind = append(out, at, &pool[from..from + usize::from(count)]);
    append(out, behind, &[COUNT, 0x01, left])
}

// The two bytes that tell of a channel and its link.
#[tactic(auto, unfolding(rules::specs::Written::status_bytes))]
fn status(n: ChannelNumber, link: Link) -> [u8; 2]
    requires { n.0 ≤ 7 }
    ensures { result ≡ status_bytes n link }
{
    match link {
        Link::NotYet => [n.0, 0x00],
        Link::Established => [n.0 + 0x80, 0x00],
        Link::Dropped => [n.0, 0x05],
    }
}

// Writes the answer to OPEN CHANNEL: a result, the status, the bearer as received, and the grant.
pub fn tell_opened(
    out: &mut [u8],
    d: Details,
    res: u8,
    n: ChannelNumber,
    link: Link,
    bearer: &[u8],
    grant: u16,
) -> usize
    requires { (n.0 ≤ 7) × (length bearer.now < 128) × (22 + length bearer.now ≤ length out.old) × (1 ≤ length bearer.now) }
    ensures { Filled (response d (done res (opened (record { number = n; link = link }) (bearer_in bearer.now) grant))) result out.old out.new }
{
    let head = tell_result(out, d, res);
    let [number, further] = status(n, link);
    // Kept: the cast, since the clause bounds the length, and `try_from` would have an arm that nothing reaches.
    let first = [STATUS, 0x02, number, further, BEARER, bearer.len() as u8];
    let at = append(out, head, &first);
    let behind = append(out, at, bearer);
    let [high, low] = grant.to_be_bytes();
    append(out, behind, &[GRANT, 0x02, high, low])
}

// Writes the status of one channel, and tells the place behind it.
#[tactic(auto, using(crate::proofs::Statuses::status_bytes_lem))]
fn tell_status(out: &mut [u8], at: usize, n: ChannelNumber, link: u16) -> usize
    requires { (n.0 ≤ 7) × (at + 4 ≤ length out.old) }
    ensures out_after { out.new ≡ pasted out.old at (object_bytes (status_object n (link_of link))) }
    ensures value { result ≡ at + 4 }
{
    let [number, further] = status(n, link_of(link));
    append(out, at, &[STATUS, 0x02, number, further])
}

// Writes the answer to GET CHANNEL STATUS: a result and a status for each open channel, rising; none open: 00 00.
pub fn tell_statuses(out: &mut [u8], d: Details, res: u8, ledger: &[u16; Ledger::SIZE]) -> usize
    requires { (length ledger.now ≡ ledger_size) × (40 ≤ length out.old) }
    ensures { Filled (response d (done res (reports (statuses (statuses_in ledger.now 0 7))))) result out.old out.new }
{
    let head = tell_result(out, d, res);
    let mut at = head;
    for k in 1..=7 {
        let n = ChannelNumber(k);
        let c = entry(ledger, n);
        if c.grant > 0 {
            at = tell_status(out, at, n, c.link);
        }
    }
    if at > head {
        return at;
    }
    append(out, at, &[STATUS, 0x02, 0x00, 0x00])
}
