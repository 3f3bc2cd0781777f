// The line program, line by line: a line to its call, and the call's outcome to a printed line; and the tool that has the calls of timers beside its lines.
#![tactic(auto)]

ghost use Rattle.std.specs.Prelude.{ℕ, ◌≡◌, ◌+◌, ◌≤◌, List, length};
ghost use Rattle.rules.specs.State.{State};
ghost use Rattle.rules.specs.Command.{Answer};
ghost use Rattle.rules.specs.Lines.{frame_of, call_of};
ghost use Rattle.rules.specs.Input.{begins, goes, line_ends};
ghost use Rattle.session.specs.Picture.{Good, Shows, view};
ghost use Rattle.rules.specs.Pool.{grant_cap};
ghost use Rattle.text.specs.Sizes.{line_cap};
ghost use Rattle.lines.specs.Says.{answer_to, Replies, Says};
ghost use Rattle.lines.specs.Acts.{TakesFrames, AnswersFrames, goes_by};
ghost use Rattle.lines.specs.Asks.{later, seconds_for, envelope_for, frame_for, calls_ends};

use modem::command_in;
use radio::{arrival_in, dropping_in, taking_in};
use rules::{Limits, Refusal};
use session::Session;
use text::{Line, Spoken, print, print_refusal, read_call, read_frame};
use timers::{envelope_in, pass_second};

// Does what a frame asks for, with the reply at the front of a buffer; R9 where it is no call.
fn call(session: &mut Session, frame: &[u8], reply: &mut [u8]) -> Result<usize, Refusal>
    requires { Good session.old × (length reply.old ≡ grant_cap) }
    ensures { Replies (answer_to (view session.old) (call_of frame.now)) session.new.ledger session.new.pool result reply.new }
{
    let spoken = read_call(frame).ok_or(Refusal::Unreadable)?;
    match spoken {
        Spoken::Command => command_in(session, frame, &mut reply[..Limits::RESPONSE]),
        Spoken::Arrival(n) => arrival_in(session, n, &frame[2..], &mut reply[..Limits::EVENT]),
        Spoken::Take(n, count) => taking_in(session, n, &mut reply[..count]),
        Spoken::Drop(n) => dropping_in(session, n, &mut reply[..Limits::EVENT]),
    }
}

// Performs a line after the first by what is done with its frame, prints the answer into `out` from `at` on, R9 where the line is unreadable, and tells the place behind it.
fn perform<F: FnOnce(&mut Session, &[u8], &mut [u8]) -> Result<usize, Refusal>>(
    act: F,
    session: &mut Session,
    line: &[u8],
    out: &mut [u8],
    at: usize,
) -> usize
    requires callable { TakesFrames (F.pre act) }
    requires answering { (f : State → List ℕ → Answer) × AnswersFrames (F.post act) f }
    requires fits { Good session.old × (at + line_cap ≤ length out.old) }
    ensures { (f : State → List ℕ → Answer) → AnswersFrames (F.post act) f → Says (goes_by f (view session.old) line.now) session.new.ledger session.new.pool result out.old at out.new }
{
    let mut frame = [0u8; Line::FRAME];
    let Some(n) = read_frame(line, &mut frame) else {
        return print_refusal(out, at, Refusal::Unreadable);
    };
    let mut reply = [0u8; Line::TAKEN];
    let ended = act(session, &frame[..n], &mut reply);
    print(out, at, ended, &reply)
}

// Performs the first line, which is the profile: a fresh session, and R9 where the line is unreadable.
pub fn begin(session: &mut Session, line: &[u8], out: &mut [u8], at: usize) -> usize
    requires { Good session.old × (at + line_cap ≤ length out.old) }
    ensures { Says (begins (frame_of line.now)) session.new.ledger session.new.pool result out.old at out.new }
{
    let mut frame = [0u8; Line::FRAME];
    let Some(n) = read_frame(line, &mut frame) else {
        session.restart(b"");
        return print(out, at, Err(Refusal::Unreadable), b"");
    };
    session.restart(&frame[..n]);
    at
}

// Performs a line that is whole: the first, or one after it.
pub fn end_line(begun: bool, session: &mut Session, line: &[u8], out: &mut [u8], at: usize) -> usize
    requires { Good session.old × (at + line_cap ≤ length out.old) }
    ensures { Says (line_ends begun (view session.old) line.now) session.new.ledger session.new.pool result out.old at out.new }
{
    if begun {
        return perform(call, session, line, out, at);
    }
    begin(session, line, out, at)
}

// The first bytes of the two calls of timers.
const SECOND: u8 = 0xA3;

const ENVELOPE: u8 = 0xA4;

// So many seconds pass.
fn pass_seconds(session: &mut Session, count: usize)
    requires { Good session.old }
    ensures { Shows (later count (view session.old)) session.new.ledger session.new.pool × Good session.new }
{
    for _ in 0..count {
        pass_second(session);
    }
}

// What a frame A3 asks for: one second, or as many as the two bytes behind it count.
fn seconds(session: &mut Session, frame: &[u8], reply: &mut [u8]) -> Result<usize, Refusal>
    requires { Good session.old × (length reply.old ≡ grant_cap) }
    ensures { Replies (seconds_for (view session.old) frame.now) session.new.ledger session.new.pool result reply.new }
{
    if frame.len() == 1 {
        pass_seconds(session, 1);
        return Ok(0);
    }
    if frame.len() != 3 {
        return Err(Refusal::Unreadable);
    }
    let count = u16::from_be_bytes([frame[1], frame[2]]);
    pass_seconds(session, usize::from(count));
    Ok(0)
}

// What a frame A4 asks for: the envelope with a buffer of 14, or of as many bytes as the byte behind it says.
fn envelope(session: &mut Session, frame: &[u8], reply: &mut [u8]) -> Result<usize, Refusal>
    requires { Good session.old × (length reply.old ≡ grant_cap) }
    ensures { Replies (envelope_for (view session.old) frame.now) session.new.ledger session.new.pool result reply.new }
{
    if frame.len() == 1 {
        return envelope_in(session, &mut reply[..Limits::ENVELOPE]);
    }
    if frame.len() != 2 {
        return Err(Refusal::Unreadable);
    }
    let size = usize::from(frame[1]);
    envelope_in(session, &mut reply[..size])
}

// Does what a frame asks for, with the reply at the front of a buffer; R9 where it is no call.
fn call_or_timer(session: &mut Session, frame: &[u8], reply: &mut [u8]) -> Result<usize, Refusal>
    requires { Good session.old × (length reply.old ≡ grant_cap) }
    ensures { Replies (frame_for (view session.old) frame.now) session.new.ledger session.new.pool result reply.new }
{
    if frame.len() == 0 {
        return call(session, frame, reply);
    }
    let first = frame[0];
    if first == SECOND {
        return seconds(session, frame, reply);
    }
    if first == ENVELOPE {
        return envelope(session, frame, reply);
    }
    call(session, frame, reply)
}

// Performs a line that is whole, the first, which is the profile, or one after it; prints its answer into `out` from `at` on, and tells the place behind it.
pub fn tell_call(
    begun: bool,
    session: &mut Session,
    line: &[u8],
    out: &mut [u8],
    at: usize,
) -> usize
    requires { Good session.old × (at + line_cap ≤ length out.old) }
    ensures { Says (calls_ends begun (view session.old) line.now) session.new.ledger session.new.pool result out.old at out.new }
{
    if !begun {
        return begin(session, line, out, at);
    }
    perform(call_or_timer, session, line, out, at)
}
