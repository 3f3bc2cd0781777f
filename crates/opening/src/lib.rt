// Step 9 of OPEN CHANNEL: its own checks, the opening and the response.
#![tactic(auto)]

ghost use Rattle.std.specs.Prelude.{◌≡◌, true, ◌≤◌, length, Ok};
ghost use Rattle.rules.specs.declared.Link.TheVariants.{NotYet, Established};
ghost use Rattle.rules.specs.Checks.{◌⇒◌else◌};
ghost use Rattle.rules.specs.Table.{bearer_fits};
ghost use Rattle.rules.specs.Reading.{bearer_in};
ghost use Rattle.rules.specs.Own.{bit1, opening, served, carried_by};
ghost use Rattle.session.specs.Picture.{Good, view};
ghost use Rattle.session.specs.Calls.{Answers};
ghost use Rattle.own.specs.Replies.{told};
ghost use Rattle.opening.specs.Unused.{open_from};

use own::short_or;
use pool::Pool;
use profile::{channels_of, serves};
use responses::{tell_opened, tell_problem, tell_result};
use rules::{Carries, Causes, ChannelNumber, Details, Link, Results};
use session::{Ledger, Session, entry, free_cells};

// The protocols that are served: UDP, which carries datagrams, and TCP, which carries a stream.
const UDP: u8 = 0x01;

pub const TCP: u8 = 0x02;

// How many channels, of the first n, stand open before the first that does not; n where none is unused.
fn open_before(ledger: &[u16; Ledger::SIZE], n: usize) -> usize
    requires { n ≤ 7 }
    ensures { result ≡ open_from ledger.now 0 n }
{
    let mut k: usize = 0;
    while k < n {
        let c = entry(ledger, ChannelNumber((k + 1) as u8));
        if c.grant < 1 {
            return k;
        }
        k += 1;
    }
    k
}

// The link of a channel that is opened: established if qualifier bit 1 is set, else not yet.
fn link_by(qualifier: u8) -> Link
    ensures { result ≡ (bit1 qualifier ⇒ Established else NotYet) }
{
    if qualifier % 2 == 1 {
        return Link::Established;
    }
    Link::NotYet
}

// Whether a protocol is served.
fn is_served(protocol: u8) -> bool
    ensures { result ≡ served protocol }
{
    match protocol {
        UDP => true,
        TCP => true,
        _ => false,
    }
}

// What a channel carries, by its protocol.
fn carried_by(protocol: u8) -> Carries
    ensures { result ≡ carried_by protocol }
{
    if protocol == UDP {
        return Carries::Datagrams;
    }
    Carries::Stream
}

// OPEN CHANNEL: the lowest unused number is opened; 07 if it grants less than asked.
pub fn open(
    session: &mut Session,
    bearer: &[u8],
    size: u16,
    protocol: u8,
    d: Details,
    ignored: bool,
    out: &mut [u8],
) -> usize
    requires { Good session.old × (255 ≤ length out.old) × (bearer_fits bearer.now ≡ true) }
    ensures { Answers (told d (opening (view session.old) d.qualifier (bearer_in bearer.now) size protocol ignored)) session.new.ledger session.new.pool (Ok result) out.old out.new }
{
    if !serves(&session.ledger, bearer[0]) {
        return tell_result(out, d, Results::BEYOND_CAPABILITIES);
    }
    if !is_served(protocol) {
        return tell_problem(out, d, Causes::LEVEL_UNAVAILABLE);
    }
    if size < 1 {
        return tell_problem(out, d, Causes::SIZE_UNAVAILABLE); // no size
    }
    let n = channels_of(&session.ledger);
    let k = open_before(&session.ledger, n);
    if k == n {
        return tell_problem(out, d, Causes::NO_CHANNEL); // no number
    }
    let free = free_cells(&session.ledger);
    if free < 2 {
        return tell_problem(out, d, Causes::SIZE_UNAVAILABLE); // too few cells
    }
    let grant = Pool::grant(size, free);
    let number = ChannelNumber((k + 1) as u8);
    let link = link_by(d.qualifier);
    let carries = carried_by(protocol);
    session.open_channel(number, grant, link, carries);
    let result = short_or(grant < size, Results::MODIFIED, ignored);
    tell_opened(out, d, result, number, link, bearer, grant)
}
