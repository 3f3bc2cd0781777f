// The command call: R1, R2, the reading, the own checks, one change of state, and the response.
#![tactic(auto)]

ghost use Rattle.std.specs.Prelude.{◌≡◌, ◌+◌, ◌≤◌, ◌<◌, length, Ok, IfSome};
ghost use Rattle.rules.specs.Profile.{profile_size};
ghost use Rattle.rules.specs.Command.{lending, command};
ghost use Rattle.command.specs.Requests.{size_at, protocol_at, AskedFor, Reads};
ghost use Rattle.octets.specs.Parts.{part};
ghost use Rattle.session.specs.Picture.{Good, view};
ghost use Rattle.session.specs.Calls.{Answers};
ghost use Rattle.modem.specs.Obeyed.{obeyed};

use command::{Handler, Request, Wrong, frame_start, read_objects};
use opening::{TCP, open};
use own::{close, list_events, receive, send, tell};
use responses::tell_result;
use rules::{ChannelNumber, Details, Limits, Refusal, Results};
use session::{Answered, Ledger, Session};
use timers::{manage_timer, start_timer};

// The size at a place, high byte first.
fn size_at(s: &[u8], at: usize) -> u16
    requires { at + 2 ≤ length s.now }
    ensures { result ≡ size_at s.now at }
{
    let high = s[at] as u16;
    let low = s[at + 1] as u16;
    256 * high + low
}

// The protocol at the place of a transport level; TCP where none stands.
fn protocol_at(s: &[u8], place: Option<usize>) -> u8
    requires { IfSome place (λ at. at < length s.now) }
    ensures { result ≡ protocol_at s.now place }
{
    match place {
        Some(at) => s[at],
        None => TCP,
    }
}

// The bytes of a time.
const TIME: usize = 3;

// Does what a request asks, by its handler.
fn carry_out(session: &mut Session, q: Request, s: &[u8], out: &mut [u8]) -> usize
    requires { Good session.old × AskedFor q (part 0 profile_size session.old.ledger) s.now × (255 ≤ length out.old) }
    ensures { Answers (obeyed (view session.old) s.now) session.new.ledger session.new.pool (Ok result) out.old out.new }
{
    let d = q.details;
    let ignored = q.ignored;
    let start = q.start;
    let end = start + q.len;
    let further = q.further;
    let to = q.destination;
    let n = ChannelNumber::from(to);
    let handler = q.handler;
    match handler {
        Handler::Bare => tell(session, d, ignored, out),
        Handler::EventList => list_events(session, &s[start..end], d, ignored, out),
        Handler::Open => open(
            session,
            &s[start..end],
            size_at(s, further),
            protocol_at(s, q.transport),
            d,
            ignored,
            out,
        ),
        Handler::Close => close(session, n, d, ignored, out),
        Handler::Receive => receive(session, n, s[start], d, ignored, out),
        Handler::Send => send(session, n, &s[start..end], d, ignored, out),
        Handler::StartTimer => start_timer(
            session,
            s[start],
            &s[further..further + TIME],
            d,
            ignored,
            out,
        ),
        Handler::ManageTimer => manage_timer(session, s[start], d, ignored, out),
    }
}

// Reads the objects of a command by the profile, the first numbers of the ledger.
fn read_by(ledger: &[u16], s: &[u8]) -> Result<Request, Wrong>
    requires { (profile_size ≤ length ledger.now) × (length s.now ≤ 256) }
    ensures { Reads result (part 0 profile_size ledger.now) s.now }
{
    read_objects(&ledger[0..Ledger::PROFILE], s)
}

// Reads the objects of a command, and tells the error or does what is asked.
fn obey(session: &mut Session, s: &[u8], out: &mut [u8]) -> usize
    requires { Good session.old × (length s.now ≤ 256) × (255 ≤ length out.old) }
    ensures { Answers (obeyed (view session.old) s.now) session.new.ledger session.new.pool (Ok result) out.old out.new }
{
    match read_by(&session.ledger, s) {
        Ok(q) => carry_out(session, q, s, out),
        Err(wrong) => tell_result(out, wrong.details, wrong.result),
    }
}

// The command call over the lent record.
pub fn command_in(session: &mut Session, s: &[u8], out: &mut [u8]) -> Result<usize, Refusal>
    requires { Good session.old }
    ensures { Answers (command (view session.old) (lending (length out.old)) s.now) session.new.ledger session.new.pool result out.old out.new }
{
    if out.len() < Limits::RESPONSE {
        return Err(Refusal::ShortBuffer);
    }
    if s.len() < 1 {
        return Err(Refusal::CommandSize);
    }
    if Limits::COMMAND < s.len() {
        return Err(Refusal::CommandSize);
    }
    let Some(start) = frame_start(s) else {
        return Ok(tell_result(out, Details::ZEROS, Results::DATA_NOT_UNDERSTOOD));
    };
    Ok(obey(session, &s[start..], out))
}

// The card sends a command.
pub fn command(session: Session, s: &[u8], out: &mut [u8]) -> Answered
    requires { Good session }
    ensures { Answers (command (view session) (lending (length out.old)) s.now) result.session.ledger result.session.pool result.ended out.old out.new }
{
    let mut session = session;
    let ended = command_in(&mut session, s, out);
    Answered { session, ended }
}
