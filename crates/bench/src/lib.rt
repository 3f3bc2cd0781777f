// The bench as a line tool: it prints what a response says, or the command of a record.
#![tactic(auto)]

ghost use Rattle.std.specs.Prelude.{◌≡◌, ◌∷◌, ◌+◌, ◌-◌, ◌*◌, ◌≤◌, length, drop};
ghost use Rattle.std.proofs.Math.Option.{some};
ghost use Rattle.rules.specs.Frames.{walk};
ghost use Rattle.rules.specs.Written.{unflagged};
ghost use Rattle.rules.specs.Bench.{bench_read};
ghost use Rattle.text.specs.Sizes.{frame_cap};
ghost use Rattle.text.specs.Prints.{Prints};
ghost use Rattle.bench.specs.Printed.{room, command_room, digits_text, object_text, objects_behind, heard_line, opening_in, body_for, record_in, record_line, reply_line, bench_line};
ghost use Rattle.bench.specs.Asks.{Asks};

use bench_reader;
use bench_writer;
use bench_writer::{Asking, Level, Record};
use objects::Cursor;
use rules::{DeviceIdentity, Limits, Refusal};
use text::{answer, print, print_char, print_refusal, print_value};

// Where the result of a response stands, behind its details and its devices.
const RESULT: usize = 9;
// The object that is a time.
const TIME: u16 = 0x25;

// What a record asks, and the bytes that are lent beside it.
#[derive(Clone, Copy)]
struct Values<'a> {
    asking: Asking,
    bytes: &'a [u8],
}

// Prints the digits of a time, of each byte the tens and then the units, and tells the place behind them.
fn print_digits(out: &mut [u8], at: usize, bytes: &[u8]) -> usize
    requires { at + 2 * length bytes.now ≤ length out.old }
    ensures { Prints (digits_text bytes.now) result out.old at out.new }
{
    for (i, byte) in bytes.iter().enumerate() {
        let k = at + 2 * i;
        out[k] = *byte % 16 + b'0';
        out[k + 1] = *byte / 16 + b'0';
    }
    at + 2 * bytes.len()
}

// Prints a blank and the text of an object, and tells the place behind it.
fn print_object(number: u16, value: &[u8], out: &mut [u8], at: usize) -> usize
    requires { at + 2 * length value.now + 3 ≤ length out.old }
    ensures { Prints (32 ∷ object_text (unflagged number value.now)) result out.old at out.new }
{
    let from = print_char(out, at, b' ');
    if number == TIME {
        return print_digits(out, from, value);
    }
    print_value(out, from, value)
}

// Prints the objects from a cursor on, a blank in front of each, and the line feed; tells the place behind it.
fn print_objects(s: &[u8], from: Cursor, out: &mut [u8], at: usize) -> usize
    requires { at + 2 * (length s.now - from.at) + 1 ≤ length out.old }
    ensures { Prints (objects_behind (walk (drop from.at s.now)).objects) result out.old at out.new }
{
    let mut c = from;
    let mut end = at;
    while let Ok(object) = c.object(s) {
        end = print_object(object.number, &s[object.start..object.next.at], out, end);
        c = object.next;
    }
    print_char(out, end, b'\n')
}

// Reads a response, and prints what it says, or R8.
#[tactic(auto, using(text::proofs::Printing::value_few))]
fn print_heard(s: &[u8], out: &mut [u8], at: usize) -> usize
    requires { at + 2 * length s.now + 9 ≤ length out.old }
    ensures { Prints (heard_line (bench_read s.now)) result out.old at out.new }
{
    let Some(response) = bench_reader::read(s) else {
        return print_refusal(out, at, Refusal::NoResponse);
    };
    let d = response.details;
    let end = print_value(out, at, &[d.number, d.kind, d.qualifier]);
    print_objects(s, Cursor { at: RESULT }, out, end)
}

// The values of an OPEN CHANNEL: bearer type, count of parameters, parameters, size, and perhaps a transport level.
#[tactic(auto, using(crate::proofs::Records::opening_unfit))]
fn read_opening(values: &[u8]) -> Option<Values>
    ensures { Asks result (opening_in values.now) }
{
    let [bearer, count, rest @ ..] = values else {
        return None;
    };
    let (bytes, rest) = rest.split_at_checked(usize::from(*count))?;
    let [high, low, rest @ ..] = rest else {
        return None;
    };
    let level = match rest {
        [] => None,
        [protocol, upper, lower] => Some(Level {
            protocol: *protocol,
            port: u16::from_be_bytes([*upper, *lower]),
        }),
        _ => return None,
    };
    let asking = Asking::Open {
        bearer: *bearer,
        size: u16::from_be_bytes([*high, *low]),
        level,
    };
    Some(Values { asking, bytes })
}

// The values of a record, by its type.
#[tactic(auto, using(crate::proofs::Records::values), unfolding(crate::specs::Printed::body_for, crate::specs::Printed::bare_body, bench_writer::specs::Records::body_of))]
fn read_values(kind: u8, values: &[u8]) -> Option<Values>
    ensures { Asks result (body_for kind values.now) }
{
    let asking = match kind {
        0x05 => Asking::EventList,
        0x40 => return read_opening(values),
        0x42 => match values {
            [n] => Asking::Receive(*n),
            _ => return None,
        },
        0x43 => Asking::Send,
        0x41 if values.is_empty() => Asking::Close,
        _ if values.is_empty() => Asking::Bare(kind),
        _ => return None,
    };
    Some(Values {
        asking,
        bytes: values,
    })
}

// Prints the command of a record, number, type, qualifier, source, destination and values behind B0, or R7, or R9 where it is none.
fn print_record(frame: &[u8], out: &mut [u8], at: usize) -> usize
    requires { at + command_room ≤ length out.old }
    ensures { Prints (record_line (record_in frame.now)) result out.old at out.new }
{
    let [_, number, kind, qualifier, source, destination, values @ ..] = frame else {
        return print_refusal(out, at, Refusal::Unreadable);
    };
    match read_values(*kind, values) {
        Some(values) => {
            let order = Record {
                number: *number,
                qualifier: *qualifier,
                source: DeviceIdentity(*source),
                destination: DeviceIdentity(*destination),
                asking: values.asking,
            };
            let mut command = [0u8; Limits::COMMAND];
            let ended = bench_writer::write(order, values.bytes, &mut command);
            print(out, at, ended, &command)
        }
        None => print_refusal(out, at, Refusal::Unreadable),
    }
}

// Prints the bench's answer to a frame: 81 a response, B0 a record, else R9.
fn print_reply(frame: &[u8], out: &mut [u8], at: usize) -> usize
    requires { (length frame.now ≤ frame_cap) × (at + room ≤ length out.old) }
    ensures { Prints (reply_line (some frame.now)) result out.old at out.new }
{
    match frame {
        [0x81, ..] => print_heard(frame, out, at),
        [0xB0, ..] => print_record(frame, out, at),
        _ => print_refusal(out, at, Refusal::Unreadable),
    }
}

// Prints the bench's answer to a line, and tells the place behind it.
pub fn tell_bench(line: &[u8], out: &mut [u8], at: usize) -> usize
    requires { at + room ≤ length out.old }
    ensures { Prints (bench_line line.now) result out.old at out.new }
{
    answer(print_reply, line, out, at)
}
