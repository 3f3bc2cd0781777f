// Step 9: the own checks of each command, one change of state, and the response.
#![tactic(auto)]

ghost use Rattle.std.specs.Prelude.{◌≡◌, ◌+◌, ◌≤◌, length, Ok};
ghost use Rattle.rules.specs.Checks.{◌⇒◌else◌, every};
ghost use Rattle.rules.specs.Profile.{profile_size, allows_event};
ghost use Rattle.rules.specs.declared.Way.TheVariants.{Send};
ghost use Rattle.rules.specs.State.{is_dropped, crowded};
ghost use Rattle.rules.specs.Own.{plain, reply, telling, listing, closing, receiving, sending};
ghost use Rattle.session.specs.Picture.{Good, link_of, view};
ghost use Rattle.session.specs.Calls.{Answers};
ghost use Rattle.session.specs.Book.{entry_in};
ghost use Rattle.session.specs.Changed.{Numbered, chan_in};
ghost use Rattle.own.specs.Replies.{told, sent_entry, sent_whole};

use profile::allows_event;
use responses::{tell_problem, tell_received, tell_result, tell_sent, tell_statuses};
use rules::{Causes, ChannelNumber, Details, Events, Limits, Link, Results, Way, lists};
use session::{Channel, Session, capped, entry, link_of, set_events, start_of};

// The type of GET CHANNEL STATUS.
const GET_CHANNEL_STATUS: u8 = 0x44;

// The result of a command that was done: 01 if an unexpected object was ignored, else 00.
pub fn plain(ignored: bool) -> u8
    ensures { result ≡ plain ignored }
{
    if ignored {
        return Results::PARTLY_UNDERSTOOD;
    }
    Results::PERFORMED
}

// The result of a command that was done: that for less than asked, if so, else the plain one.
pub fn short_or(short: bool, res: u8, ignored: bool) -> u8
    ensures { result ≡ (short ⇒ res else plain ignored) }
{
    if short {
        return res;
    }
    plain(ignored)
}

// The types that change nothing: GET CHANNEL STATUS tells the statuses, MORE TIME tells nothing. The session stays.
pub fn tell(session: &Session, d: Details, ignored: bool, out: &mut [u8]) -> usize
    requires { Good session.now × (255 ≤ length out.old) }
    ensures { Answers (told d (reply (view session.now) (telling (view session.now) d.kind ignored))) session.now.ledger session.now.pool (Ok result) out.old out.new }
{
    if d.kind == GET_CHANNEL_STATUS {
        return tell_statuses(out, d, plain(ignored), &session.ledger);
    }
    tell_result(out, d, plain(ignored))
}

// Whether the profile, the first numbers of the ledger, allows each of the events.
fn all_allowed(ledger: &[u16], events: &[u8]) -> bool
    requires { profile_size ≤ length ledger.now }
    ensures { result ≡ every (allows_event ledger.now) events.now }
{
    let mut i: usize = 0;
    while i < events.len() {
        if !allows_event(ledger, events[i]) {
            return false;
        }
        i += 1;
    }
    true
}

// SET UP EVENT LIST: each value must be allowed, or the list stays; it replaces the old one. The pool stays.
pub fn list_events(
    session: &mut Session,
    events: &[u8],
    d: Details,
    ignored: bool,
    out: &mut [u8],
) -> usize
    requires { Good session.old × (255 ≤ length out.old) }
    ensures { Answers (told d (listing (view session.old) events.now ignored)) session.new.ledger session.new.pool (Ok result) out.old out.new }
{
    if !all_allowed(&session.ledger, events) {
        return tell_result(out, d, Results::BEYOND_CAPABILITIES);
    }
    let listed = Events {
        available: lists(events, 0x09),
        status: lists(events, 0x0A),
    };
    set_events(&mut session.ledger, listed);
    tell_result(out, d, plain(ignored))
}

// CLOSE CHANNEL: the channel ends, held bytes are discarded.
pub fn close(
    session: &mut Session,
    n: ChannelNumber,
    d: Details,
    ignored: bool,
    out: &mut [u8],
) -> usize
    requires { Numbered session.old.ledger session.old.pool n × (255 ≤ length out.old) }
    ensures { Answers (told d (closing (view session.old) n ignored)) session.new.ledger session.new.pool (Ok result) out.old out.new }
{
    let c = entry(&session.ledger, n);
    if c.grant < 1 {
        return tell_problem(out, d, Causes::CHANNEL_INVALID);
    }
    session.close_channel(n, c.grant);
    tell_result(out, d, plain(ignored))
}

// RECEIVE DATA: the least of the request, what may be handed out at once and 237 is handed out; 02 if that is fewer than asked.
pub fn receive(
    session: &mut Session,
    n: ChannelNumber,
    request: u8,
    d: Details,
    ignored: bool,
    out: &mut [u8],
) -> usize
    requires { Numbered session.old.ledger session.old.pool n × (255 ≤ length out.old) }
    ensures { Answers (told d (receiving (view session.old) n request ignored)) session.new.ledger session.new.pool (Ok result) out.old out.new }
{
    let c = entry(&session.ledger, n);
    if c.grant < 1 {
        return tell_problem(out, d, Causes::CHANNEL_INVALID);
    }
    let held = c.rx as usize;
    let most = session.at_once(n, c, Way::Receive);
    let handed = (request as usize).min(most.min(Limits::DATA));
    let result = short_or(
        handed < request as usize,
        Results::MISSING_INFORMATION,
        ignored,
    );
    // The count that is told is the one behind the bytes, and they are told before they go, since they go from the pool to the buffer.
    let left = capped(held - handed);
    let at = start_of(&session.ledger, n, c.grant, Way::Receive);
    let count = tell_received(out, d, result, &session.pool, at, handed as u8, left);
    session.remove(n, c, Way::Receive, at, handed);
    count
}

// The entry that so many bytes of SEND DATA join: with qualifier bit 1 set all bytes then held are ready, and the link is established.
fn sent_entry(c: Channel, qualifier: u8, count: usize) -> Channel
    requires { c.tx + count ≤ 65535 }
    ensures { result ≡ sent_entry c qualifier count }
{
    if qualifier % 2 == 1 {
        return Channel {
            link: Link::Established as u16,
            ready: (c.tx as usize + count) as u16,
            ..c
        };
    }
    c
}

// How many bytes so many more of SEND DATA make a whole datagram: with qualifier bit 1 set all that are not ready, else none.
fn sent_whole(c: Channel, qualifier: u8, count: usize) -> usize
    requires { (c.tx + count ≤ 65535) × (c.ready ≤ c.tx) }
    ensures { result ≡ sent_whole c qualifier count }
{
    if qualifier % 2 == 1 {
        return c.tx as usize + count - c.ready as usize;
    }
    0
}

// Whether bytes of SEND DATA would begin a datagram for which there is no place; they join the unfinished one, if there is one.
fn lacks_place(session: &Session, n: ChannelNumber, c: Channel, bytes: &[u8]) -> bool
    requires { Numbered session.now.ledger session.now.pool n × (c ≡ entry_in session.now.ledger n) }
    ensures { result ≡ crowded (chan_in session.now.ledger session.now.pool n) Send bytes.now }
{
    if bytes.len() < 1 {
        return false;
    }
    if c.ready < c.tx {
        return false;
    }
    session.is_crowded(n, Way::Send)
}

// Whether a link was dropped.
fn is_dropped(link: u16) -> bool
    ensures { result ≡ is_dropped (link_of link) }
{
    matches!(link_of(link), Link::Dropped)
}

// SEND DATA: the bytes are stored whole or not at all, and the room that is left is told.
pub fn send(
    session: &mut Session,
    n: ChannelNumber,
    bytes: &[u8],
    d: Details,
    ignored: bool,
    out: &mut [u8],
) -> usize
    requires { Numbered session.old.ledger session.old.pool n × (255 ≤ length out.old) }
    ensures { Answers (told d (sending (view session.old) d.qualifier n bytes.now ignored)) session.new.ledger session.new.pool (Ok result) out.old out.new }
{
    let c = entry(&session.ledger, n);
    if c.grant < 1 {
        return tell_problem(out, d, Causes::CHANNEL_INVALID);
    }
    let link = c.link;
    if is_dropped(link) {
        return tell_problem(out, d, Causes::CHANNEL_CLOSED);
    }
    let room = (c.grant - c.tx) as usize;
    if room < bytes.len() {
        return tell_problem(out, d, Causes::SIZE_UNAVAILABLE);
    }
    if lacks_place(session, n, c, bytes) {
        return tell_problem(out, d, Causes::SIZE_UNAVAILABLE);
    }
    // The room that is told is the one behind the bytes; it is told before they are stored because the call is shorter so.
    let left = capped(room - bytes.len());
    let count = tell_sent(out, d, plain(ignored), left);
    let joined = sent_entry(c, d.qualifier, bytes.len());
    let len = sent_whole(c, d.qualifier, bytes.len());
    session.append(n, joined, Way::Send, bytes, len);
    count
}
