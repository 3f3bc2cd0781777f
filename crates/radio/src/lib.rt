// The calls from the radio: arrival, take and drop.
#![tactic(auto)]

ghost use Rattle.std.specs.Prelude.{◌≡◌, not, ◌&&◌, ◌≤◌, length, ltb};
ghost use Rattle.rules.specs.State.{is_stream};
ghost use Rattle.rules.specs.Radio.{arrival, taking, dropping};
ghost use Rattle.octets.specs.Parts.{overlaid};
ghost use Rattle.session.specs.Picture.{Good, carries_of, view};
ghost use Rattle.session.specs.Calls.{Answers};
ghost use Rattle.radio.specs.Permits.{permit_in, Usable, arrival_told, drop_told};

use octets;
use rules::{ChannelNumber, Limits, Link, Refusal, Way};
use session::{Answered, Channel, Ledger, Session, capped, entry, put_entry, start_of};

// R3, R4 and R5, in order, or the entry of the channel, which the radio may use.
fn permitted(ledger: &[u16; Ledger::SIZE], n: ChannelNumber) -> Result<Channel, Refusal>
    ensures { result ≡ permit_in ledger.now n }
{
    if n.0 < 1 || 7 < n.0 {
        return Err(Refusal::NoChannel);
    }
    let c = entry(ledger, n);
    if c.grant == 0 {
        return Err(Refusal::Unopened);
    }
    if c.link != Link::Established as u16 {
        return Err(Refusal::Unlinked);
    }
    Ok(c)
}

// Writes event 09, an established channel and how many bytes came, and tells the event's size.
fn tell_arrival(out: &mut [u8], n: ChannelNumber, count: usize) -> usize
    requires { (n.0 ≤ 7) × (16 ≤ length out.old) }
    ensures told { out.new ≡ overlaid (arrival_told n count) out.old }
    ensures size { result ≡ 16 }
{
    let status = n.0 + 0x80;
    let event = [
        0xD6u8,
        0x0E,
        0x19,
        0x01,
        0x09,
        0x82,
        0x02,
        0x82,
        0x81,
        0x38,
        0x02,
        status,
        0x00,
        0x37,
        0x01,
        capped(count),
    ];
    octets::put(out, 0, &event);
    event.len()
}

// Writes event 0A, a channel whose link was dropped, and tells the event's size.
fn tell_drop(out: &mut [u8], n: ChannelNumber) -> usize
    requires { 13 ≤ length out.old }
    ensures told { out.new ≡ overlaid (drop_told n) out.old }
    ensures size { result ≡ 13 }
{
    let event = [
        0xD6u8, 0x0B, 0x19, 0x01, 0x0A, 0x82, 0x02, 0x82, 0x81, 0x38, 0x02, n.0, 0x05,
    ];
    octets::put(out, 0, &event);
    event.len()
}

// An arrival on a channel that may be used: R6 and R11, or the bytes are stored whole, and where none were held event 09 tells of them.
fn accept(
    session: &mut Session,
    n: ChannelNumber,
    c: Channel,
    bytes: &[u8],
    out: &mut [u8],
) -> Result<usize, Refusal>
    requires { Usable session.old.ledger session.old.pool n c × (16 ≤ length out.old) }
    ensures { Answers (arrival (view session.old) (length out.old) n bytes.now) session.new.ledger session.new.pool result out.old out.new }
{
    let listed = session.ledger[Ledger::AVAILABLE_AT];
    let room = (c.grant - c.rx) as usize;
    if room < bytes.len() {
        return Err(Refusal::Overfull);
    }
    if bytes.is_empty() {
        return Ok(0);
    }
    if session.is_crowded(n, Way::Receive) {
        return Err(Refusal::NoPlace);
    }
    session.append(n, c, Way::Receive, bytes, bytes.len());
    if listed == 0 {
        return Ok(0);
    }
    if 0 < c.rx {
        return Ok(0);
    }
    Ok(tell_arrival(out, n, bytes.len()))
}

// The arrival call over the lent record.
pub fn arrival_in(
    session: &mut Session,
    n: ChannelNumber,
    bytes: &[u8],
    out: &mut [u8],
) -> Result<usize, Refusal>
    requires { Good session.old }
    ensures { Answers (arrival (view session.old) (length out.old) n bytes.now) session.new.ledger session.new.pool result out.old out.new }
{
    if out.len() < Limits::EVENT {
        return Err(Refusal::ShortBuffer);
    }
    let c = permitted(&session.ledger, n)?;
    accept(session, n, c, bytes, out)
}

// R12: the channel carries datagrams, and the buffer has no room for the one that would be handed out.
fn is_short(c: Channel, room: usize, most: usize) -> bool
    ensures { result ≡ not (is_stream (carries_of c.carries)) && ltb room most }
{
    !c.is_stream() && room < most
}

// A take on a channel that may be used: R12, or as many ready bytes as fit the buffer, of datagrams the oldest finished one, whole.
fn hand_over(
    session: &mut Session,
    n: ChannelNumber,
    c: Channel,
    out: &mut [u8],
) -> Result<usize, Refusal>
    requires { Usable session.old.ledger session.old.pool n c }
    ensures { Answers (taking (view session.old) (length out.old) n) session.new.ledger session.new.pool result out.old out.new }
{
    let most = session.at_once(n, c, Way::Send);
    if is_short(c, out.len(), most) {
        return Err(Refusal::Undersized);
    }
    let count = out.len().min(most);
    let at = start_of(&session.ledger, n, c.grant, Way::Send);
    octets::put_part(out, 0, &session.pool, at, at + count);
    session.remove(n, c, Way::Send, at, count);
    Ok(count)
}

// The take over the lent record.
pub fn taking_in(session: &mut Session, n: ChannelNumber, out: &mut [u8]) -> Result<usize, Refusal>
    requires { Good session.old }
    ensures { Answers (taking (view session.old) (length out.old) n) session.new.ledger session.new.pool result out.old out.new }
{
    let c = permitted(&session.ledger, n)?;
    hand_over(session, n, c, out)
}

// A drop on a channel that may be used: the link is dropped, and event 0A tells of it.
fn drop_link(
    session: &mut Session,
    n: ChannelNumber,
    c: Channel,
    out: &mut [u8],
) -> Result<usize, Refusal>
    requires { Usable session.old.ledger session.old.pool n c × (16 ≤ length out.old) }
    ensures { Answers (dropping (view session.old) (length out.old) n) session.new.ledger session.new.pool result out.old out.new }
{
    let listed = session.ledger[Ledger::STATUS_AT];
    let gone = Channel {
        link: Link::Dropped as u16,
        ..c
    };
    put_entry(&mut session.ledger, n, gone);
    if listed == 0 {
        return Ok(0);
    }
    Ok(tell_drop(out, n))
}

// The drop over the lent record; what is held stays.
pub fn dropping_in(
    session: &mut Session,
    n: ChannelNumber,
    out: &mut [u8],
) -> Result<usize, Refusal>
    requires { Good session.old }
    ensures { Answers (dropping (view session.old) (length out.old) n) session.new.ledger session.new.pool result out.old out.new }
{
    if out.len() < Limits::EVENT {
        return Err(Refusal::ShortBuffer);
    }
    let c = permitted(&session.ledger, n)?;
    drop_link(session, n, c, out)
}

// The radio brings bytes for a channel.
pub fn arrival(s: Session, n: ChannelNumber, bytes: &[u8], out: &mut [u8]) -> Answered
    requires { Good s }
    ensures { Answers (arrival (view s) (length out.old) n bytes.now) result.session.ledger result.session.pool result.ended out.old out.new }
{
    let mut session = s;
    let ended = arrival_in(&mut session, n, bytes, out);
    Answered { session, ended }
}

// The radio takes the bytes of a channel that are ready: as many as fit, of datagrams the oldest finished one, whole.
pub fn take(s: Session, n: ChannelNumber, out: &mut [u8]) -> Answered
    requires { Good s }
    ensures { Answers (taking (view s) (length out.old) n) result.session.ledger result.session.pool result.ended out.old out.new }
{
    let mut session = s;
    let ended = taking_in(&mut session, n, out);
    Answered { session, ended }
}

// The radio tells that the link of a channel was dropped.
pub fn drop(s: Session, n: ChannelNumber, out: &mut [u8]) -> Answered
    requires { Good s }
    ensures { Answers (dropping (view s) (length out.old) n) result.session.ledger result.session.pool result.ended out.old out.new }
{
    let mut session = s;
    let ended = dropping_in(&mut session, n, out);
    Answered { session, ended }
}
