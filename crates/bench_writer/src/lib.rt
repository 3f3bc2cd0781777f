// The bench's writer: a command from a record, or a refusal.
#![tactic(auto)]

ghost use Rattle.std.specs.Prelude.{◌≡◌, true, List, ◌∷◌, ◌++◌, ℕ, ◌+◌, ◌≤◌, length};
ghost use Rattle.rules.specs.Results.{value_cap};
ghost use Rattle.rules.specs.Frames.{length_bytes, written};
ghost use Rattle.rules.specs.Checks.{member};
ghost use Rattle.rules.specs.Reading.{kind_of};
ghost use Rattle.rules.specs.Own.{bare_types};
ghost use Rattle.rules.specs.Bench.{body_proper, transport_objects, body_objects, bench_write};
ghost use Rattle.rules.specs.Command.{ended_of, written_by};
ghost use Rattle.octets.specs.Parts.{overlaid};
ghost use Rattle.bench_writer.specs.Records.{level_of, body_of, command_of};
ghost use Rattle.bench_writer.specs.Wrote.{body_cap, Wrote, front_bytes};

use objects;
use octets;
use rules::{CommandType, DeviceIdentity, Limits, Refusal, fits_bearer, is_addressed};

// The transport level of an OPEN CHANNEL, object 3C: its protocol and its port.
#[derive(Clone, Copy)]
pub struct Level {
    pub protocol: u8,
    pub port: u16,
}

// What a record asks, with the values that its type has; one without values by its type. The event list, the bearer's parameters or the data are lent beside it.
// Kept: `Bare` has a byte and no `CommandType`, since `write` answers a record of any byte.
#[derive(Clone, Copy)]
pub enum Asking {
    Bare(u8),
    EventList,
    Open {
        bearer: u8,
        size: u16,
        level: Option<Level>,
    },
    Close,
    Receive(u8),
    Send,
}

// A record: the command's number, its qualifier, from where it comes and where it goes, and what it asks.
#[derive(Clone, Copy)]
pub struct Record {
    pub number: u8,
    pub qualifier: u8,
    pub source: DeviceIdentity,
    pub destination: DeviceIdentity,
    pub asking: Asking,
}

// The type of what is asked.
#[tactic(auto, unfolding(rules::specs::Reading::kind_of, crate::specs::Records::body_of))]
fn kind_of(asking: Asking) -> u8
    ensures { (s : List ℕ) → result ≡ kind_of (body_of asking s) }
{
    match asking {
        Asking::Bare(kind) => kind,
        Asking::EventList => CommandType::SetUpEventList as u8,
        Asking::Open { .. } => CommandType::OpenChannel as u8,
        Asking::Close => CommandType::CloseChannel as u8,
        Asking::Receive(_) => CommandType::ReceiveData as u8,
        Asking::Send => CommandType::SendData as u8,
    }
}

// Whether a type without values is one that the bench writes.
#[tactic(auto, unfolding(rules::specs::Checks::member, rules::specs::Checks::some_of))]
fn is_bare(kind: u8) -> bool
    ensures { result ≡ member kind bare_types }
{
    matches!(kind, 0x02 | 0x44)
}

// Whether the values are such as the bench writes.
#[tactic(auto, unfolding(rules::specs::Bench::body_proper, crate::specs::Records::body_of))]
fn is_proper(asking: Asking, bytes: &[u8]) -> bool
    ensures { result ≡ body_proper (body_of asking bytes.now) }
{
    match asking {
        Asking::Bare(kind) => is_bare(kind),
        Asking::EventList | Asking::Send => bytes.len() <= Limits::VALUE,
        Asking::Open { bearer, .. } => fits_bearer(bearer, bytes),
        Asking::Close | Asking::Receive(_) => true,
    }
}

// How many bytes an object takes whose value has so many.
#[tactic(auto, using(objects::proofs::Writing::short_length, objects::proofs::Writing::long_length_lem))]
fn object_size(len: usize) -> usize
    requires { len ≤ value_cap }
    ensures { result ≡ 1 + length (length_bytes len) + len }
{
    if len < 0x80 {
        return 2 + len;
    }
    3 + len
}

// How many bytes a transport level takes, where there is one.
fn level_size(level: Option<Level>) -> usize
    ensures { result ≡ length (written (transport_objects (level_of level))) }
{
    match level {
        None => 0,
        Some(_) => 5,
    }
}

// How many bytes the objects of the values take.
#[tactic(auto, using(crate::proofs::Fits::sizes), unfolding(rules::specs::Bench::body_proper, rules::specs::Bench::body_objects, crate::specs::Records::body_of))]
fn body_size(asking: Asking, bytes: &[u8]) -> usize
    requires { body_proper (body_of asking bytes.now) ≡ true }
    ensures { result ≡ length (written (body_objects (body_of asking bytes.now))) }
{
    match asking {
        Asking::Bare(_) | Asking::Close => 0,
        Asking::EventList | Asking::Send => object_size(bytes.len()),
        Asking::Open { level, .. } => 7 + bytes.len() + level_size(level),
        Asking::Receive(_) => 3,
    }
}

// Writes an object, and tells the place behind it.
#[tactic(auto, using(rules::proofs::Sizes::length_bytes_lem))]
fn write_object(out: &mut [u8], at: usize, tag: u8, value: &[u8]) -> usize
    requires { (at + 3 + length value.now ≤ length out.old) × (length value.now ≤ value_cap) }
    ensures { Wrote (tag ∷ length_bytes (length value.now) ++ value.now) at result out.old out.new }
{
    let start = objects::write_length(out, at, tag, value.len() as u8);
    octets::put(out, start, value);
    start + value.len()
}

// Writes D0, the length of the objects, and objects 01 and 02, which so many bytes are to follow; tells the place behind them.
#[tactic(auto, using(rules::proofs::Sizes::length_bytes_lem))]
fn write_front(out: &mut [u8], order: Record, kind: u8, size: usize) -> usize
    requires { (12 ≤ length out.old) × (size ≤ body_cap) }
    ensures { Wrote (front_bytes order kind size) 0 result out.old out.new }
{
    let start = objects::write_length(out, 0, 0xD0, (9 + size) as u8);
    let objects = [
        0x81u8,
        0x03,
        order.number,
        kind,
        order.qualifier,
        0x82,
        0x02,
        order.source.0,
        order.destination.0,
    ];
    octets::put(out, start, &objects);
    start + 9
}

// Writes the transport level, flag clear, where there is one, and tells the place behind it.
fn write_level(out: &mut [u8], at: usize, level: Option<Level>) -> usize
    requires { at + 6 ≤ length out.old }
    ensures { Wrote (written (transport_objects (level_of level))) at result out.old out.new }
{
    let Some(level) = level else {
        return at;
    };
    let [high, low] = level.port.to_be_bytes();
    write_object(out, at, 0x3C, &[level.protocol, high, low])
}

// Writes the objects of an OPEN CHANNEL, and tells the place behind them.
fn write_opening(
    out: &mut [u8],
    at: usize,
    bearer: u8,
    size: u16,
    level: Option<Level>,
    parameters: &[u8],
) -> usize
    requires { (at + body_cap ≤ length out.old) × (length parameters.now ≤ 6) }
    ensures { Wrote (written (body_objects (body_of (Asking.Open bearer size level) parameters.now))) at result out.old out.new }
{
    octets::put(out, at, &[0xB5, 1 + parameters.len() as u8, bearer]);
    let start = at + 3;
    octets::put(out, start, parameters);
    let behind = write_object(out, start + parameters.len(), 0xB9, &size.to_be_bytes());
    write_level(out, behind, level)
}

// Writes the objects of the values, and tells the place behind them.
#[tactic(auto, using(crate::proofs::Fits::sizes), unfolding(rules::specs::Bench::body_proper, crate::specs::Records::body_of))]
fn write_body(out: &mut [u8], at: usize, asking: Asking, bytes: &[u8]) -> usize
    requires { (at + body_cap ≤ length out.old) × (body_proper (body_of asking bytes.now) ≡ true) }
    ensures { Wrote (written (body_objects (body_of asking bytes.now))) at result out.old out.new }
{
    match asking {
        Asking::Bare(_) | Asking::Close => at,
        Asking::EventList => write_object(out, at, 0x99, bytes),
        Asking::Open {
            bearer,
            size,
            level,
        } => write_opening(out, at, bearer, size, level, bytes),
        Asking::Receive(n) => write_object(out, at, 0xB7, &[n]),
        Asking::Send => write_object(out, at, 0xB6, bytes),
    }
}

// Writes the command of a record, or refuses with R1 or R7.
#[tactic(auto, using(crate::proofs::Fits::calls), unfolding(rules::specs::Bench::bench_write, rules::specs::Command::ended_of, rules::specs::Command::written_by, octets::specs::Parts::overlaid, crate::specs::Records::command_of))]
pub fn write(order: Record, bytes: &[u8], out: &mut [u8]) -> Result<usize, Refusal>
    ensures value { result ≡ ended_of (bench_write (length out.old) (command_of order bytes.now)) }
    ensures out_after { out.new ≡ overlaid (written_by (bench_write (length out.old) (command_of order bytes.now))) out.old }
{
    if out.len() < Limits::COMMAND {
        return Err(Refusal::ShortBuffer);
    }
    let asking = order.asking;
    let kind = kind_of(asking);
    if !is_addressed(kind, order.source, order.destination) || !is_proper(asking, bytes) {
        return Err(Refusal::UnfitRecord);
    }
    let size = body_size(asking, bytes);
    let at = write_front(out, order, kind, size);
    Ok(write_body(out, at, asking, bytes))
}
