// The session record, and every change of it.
#![tactic(auto)]

ghost use Rattle.std.specs.Prelude.{◌≡◌, ◌+◌, ◌-◌, ◌*◌, ◌≤◌, min, ◌++◌, length, replicate, set, leb};
ghost use Rattle.rules.specs.Pool.{cells, unpromised};
ghost use Rattle.rules.specs.Profile.{profile_size, kept};
ghost use Rattle.rules.specs.declared.Way.TheVariants.{Receive};
ghost use Rattle.rules.specs.Datagrams.{place_count};
ghost use Rattle.rules.specs.State.{start, is_stream, room, at_once, chan, queue, closed, fresh, marked, appended, whole, removed};
ghost use Rattle.octets.specs.Parts.{pasted};
ghost use Rattle.rules.specs.Own.{capped};
ghost use Rattle.session.specs.Book.{IsChannel, entry_at, free_at, free_in, ledger_size, entry_in, with_entry, lengths_at, lengths_in, with_length, less_length, with_list};
ghost use Rattle.session.specs.Picture.{Good, Shows, link_of, carries_of, ledger_of, view, base_in, start_in};
ghost use Rattle.session.specs.Changed.{Numbered, Changed, held_in, due_in, more_in, less_in, Marks};

use octets;
use pool::Pool;
use rules::{Carries, ChannelNumber, Events, Link, Refusal, Way};

// The ledger, which is numbers: where they stand, and how many there are.
#[derive(Drop)]
pub struct Ledger {}

impl Ledger {
    pub const PROFILE: usize = 13;

    pub const AVAILABLE_AT: usize = 13;

    pub const STATUS_AT: usize = 14;

    pub const FREE_AT: usize = 15;

    pub const TIMERS_AT: usize = 16;

    pub const TIMER: usize = 6;

    pub const TIMERS: usize = 8;

    pub const CHANNELS_AT: usize = 64;

    pub const ENTRY: usize = 38;

    pub const LENGTHS: usize = 6;

    pub const PLACES: usize = 16;

    pub const SIZE: usize = 330;
}

// A channel: its grant (0 where it is not open), its link by number, how many bytes are held each way, how many of those to send are ready, and what it carries by number.
#[derive(Clone, Copy)]
pub struct Channel {
    pub grant: u16,
    pub link: u16,
    pub rx: u16,
    pub tx: u16,
    pub ready: u16,
    pub carries: u16,
}

// What a host keeps for a card: the ledger as numbers (the profile's, two of the event list, the unpromised cells, an entry for each channel), and the pool in which every held byte lies.
#[repr(C)]
#[derive(Drop)]
pub struct Session {
    pub ledger: [u16; Ledger::SIZE],
    pub pool: [u8; Pool::SIZE],
}

// What a call by value hands back.
#[derive(Drop)]
pub struct Answered {
    pub session: Session,
    pub ended: Result<usize, Refusal>,
}

// The link of a number.
pub fn link_of(number: u16) -> Link
    ensures { result ≡ link_of number }
{
    match number {
        0 => Link::NotYet,
        1 => Link::Established,
        _ => Link::Dropped,
    }
}

impl Channel {
    // The entry of a channel that is not open.
    const CLOSED: Channel = Channel {
        grant: 0,
        link: Link::NotYet as u16,
        rx: 0,
        tx: 0,
        ready: 0,
        carries: Carries::Stream as u16,
    };

    // Whether the channel carries a stream.
    pub fn is_stream(self) -> bool
        ensures { result ≡ is_stream (carries_of self.carries) }
    {
        self.carries == Carries::Stream as u16
    }

    // How many bytes are held for a way.
    fn held(self, way: Way) -> usize
        ensures { result ≡ held_in self way }
    {
        match way {
            Way::Receive => self.rx as usize,
            Way::Send => self.tx as usize,
        }
    }

    // How many bytes of a way are due to be handed out.
    fn due(self, way: Way) -> usize
        ensures { result ≡ due_in self way }
    {
        match way {
            Way::Receive => self.rx as usize,
            Way::Send => self.ready as usize,
        }
    }

    // The entry that counts bytes more for a way.
    fn more(self, way: Way, count: usize) -> Channel
        requires { held_in self way + count ≤ 65535 }
        ensures { result ≡ more_in self way count }
    {
        match way {
            Way::Receive => Channel {
                rx: self.rx + count as u16,
                ..self
            },
            Way::Send => Channel {
                tx: self.tx + count as u16,
                ..self
            },
        }
    }

    // The entry without the first bytes of a way, which were ready if they were to be sent.
    fn less(self, way: Way, count: usize) -> Channel
        requires { (count ≤ held_in self way) × (count ≤ due_in self way) }
        ensures { result ≡ less_in self way count }
    {
        match way {
            Way::Receive => Channel {
                rx: self.rx - count as u16,
                ..self
            },
            Way::Send => Channel {
                tx: self.tx - count as u16,
                ready: self.ready - count as u16,
                ..self
            },
        }
    }
}

// Where the entry of a channel begins; k counts the channels before it.
fn entry_at(k: usize) -> usize
    requires { k ≤ 6 }
    ensures { result ≡ entry_at k }
{
    Ledger::ENTRY * k + Ledger::CHANNELS_AT
}

// The entry of a channel.
// Kept: that the number is one of the seven is asked for, as `IsChannel`. A type of its own would be made anew from a ChannelNumber at each call of the crates above, whose contracts and laws speak of that, by a test that they have made or by the same `requires`.
pub fn entry(ledger: &[u16; Ledger::SIZE], n: ChannelNumber) -> Channel
    requires { IsChannel n }
    ensures { result ≡ entry_in ledger.now n }
{
    let at = entry_at(n.0 as usize - 1);
    Channel {
        grant: ledger[at],
        link: ledger[at + 1],
        rx: ledger[at + 2],
        tx: ledger[at + 3],
        ready: ledger[at + 4],
        carries: ledger[at + 5],
    }
}

// Writes the entry of a channel.
pub fn put_entry(ledger: &mut [u16; Ledger::SIZE], n: ChannelNumber, c: Channel)
    requires { IsChannel n }
    ensures { ledger.new ≡ with_entry ledger.old n c }
{
    let at = entry_at(n.0 as usize - 1);
    ledger[at] = c.grant;
    ledger[at + 1] = c.link;
    ledger[at + 2] = c.rx;
    ledger[at + 3] = c.tx;
    ledger[at + 4] = c.ready;
    ledger[at + 5] = c.carries;
}

// Where the region of a channel begins: the regions of the channels before it stand one after the other.
fn base(ledger: &[u16; Ledger::SIZE], n: ChannelNumber) -> usize
    requires { IsChannel n }
    ensures value { result ≡ base_in ledger.now (n.0 - 1) }
    ensures upper_bound { result ≤ 6 * 131072 }
{
    let mut at = 0;
    for i in 0..n.0 as usize - 1 {
        at += 2 * Pool::space(ledger[entry_at(i)]);
    }
    at
}

// Where the bytes of a channel with that grant begin for a way: its cells for receive stand before those for send.
pub fn start_of(ledger: &[u16; Ledger::SIZE], n: ChannelNumber, grant: u16, way: Way) -> usize
    requires { IsChannel n }
    ensures { result ≡ start_in ledger.now n grant way }
{
    let at = base(ledger, n);
    match way {
        Way::Receive => at,
        Way::Send => at + Pool::space(grant),
    }
}

// The cells that are not promised to any channel.
pub fn free_cells(ledger: &[u16; Ledger::SIZE]) -> usize
    ensures { result ≡ free_in ledger.now }
{
    ledger[Ledger::FREE_AT] as usize
}

// Writes how many cells are not promised.
fn put_free(ledger: &mut [u16; Ledger::SIZE], free: usize)
    requires { free ≤ 65535 }
    ensures { ledger.new ≡ set ledger.old free_at free }
{
    ledger[Ledger::FREE_AT] = free as u16;
}

// Where the lengths of a channel and a way stand.
fn lengths_at(n: ChannelNumber, way: Way) -> usize
    requires { IsChannel n }
    ensures { result ≡ lengths_at n way }
{
    let at = entry_at(n.0 as usize - 1) + Ledger::LENGTHS;
    match way {
        Way::Receive => at,
        Way::Send => at + Ledger::PLACES,
    }
}

// How many datagrams of a way are whole, where one more has a place.
fn whole_count(ledger: &[u16; Ledger::SIZE], n: ChannelNumber, way: Way) -> usize
    requires channel { IsChannel n }
    requires place { length (lengths_in ledger.now n way) + 1 ≤ place_count }
    ensures { result ≡ length (lengths_in ledger.now n way) }
{
    // Kept: `position` over the lengths is slower. Where it ends at the last place the compiler writes it out 16 times, so that `append` is no part of its callers, and an arrival costs 54 instructions more; where it ends with the ledger an arrival behind 15 datagrams costs 33 more.
    let at = lengths_at(n, way);
    let mut i = 0;
    while ledger[at + i] != 0 {
        i += 1;
    }
    i
}

// One datagram more of so many bytes, at the first place that is free; no bytes make none.
fn count_whole(ledger: &mut [u16; Ledger::SIZE], n: ChannelNumber, way: Way, len: usize)
    requires channel { IsChannel n × (len ≤ 65535) }
    requires place { length (lengths_in ledger.old n way) + min 1 len ≤ place_count }
    ensures { ledger.new ≡ with_length ledger.old n way len }
{
    if len == 0 {
        return;
    }
    let at = lengths_at(n, way);
    let i = whole_count(ledger, n, way);
    ledger[at + i] = len as u16;
}

// The first bytes of a way's first datagram go: what is left of it is the first, or the others move to the front.
fn count_less(ledger: &mut [u16; Ledger::SIZE], n: ChannelNumber, way: Way, count: usize)
    requires { IsChannel n }
    ensures { ledger.new ≡ less_length ledger.old n way count }
{
    let at = lengths_at(n, way);
    let first = ledger[at] as usize;
    if count < first {
        ledger[at] = (first - count) as u16;
        return;
    }
    let last = at + Ledger::PLACES - 1;
    for i in at..last {
        ledger[i] = ledger[i + 1];
    }
    ledger[last] = 0;
}

// Clears the lengths of a channel.
fn clear_lengths(ledger: &mut [u16; Ledger::SIZE], n: ChannelNumber)
    requires { IsChannel n }
    ensures { ledger.new ≡ pasted ledger.old (lengths_at n Receive) (replicate 32 0) }
{
    let at = lengths_at(n, Way::Receive);
    ledger[at..at + 2 * Ledger::PLACES].fill(0);
}

impl Session {
    // Whether every place of a way has a datagram.
    pub fn is_crowded(&self, n: ChannelNumber, way: Way) -> bool
        requires { Numbered self.now.ledger self.now.pool n }
        ensures { result ≡ leb place_count (length (queue (chan (view self.now) n) way).lengths) }
    {
        let at = lengths_at(n, way);
        0 < self.ledger[at + (Ledger::PLACES - 1)]
    }

    // How many bytes of a way may be handed out at once: of a stream all that are due, of datagrams those of the first.
    pub fn at_once(&self, n: ChannelNumber, c: Channel, way: Way) -> usize
        requires { Numbered self.now.ledger self.now.pool n × (c ≡ entry_in self.now.ledger n) }
        ensures { result ≡ at_once (chan (view self.now) n) way }
    {
        if c.is_stream() {
            return c.due(way);
        }
        self.ledger[lengths_at(n, way)] as usize
    }

    // Bytes come to a way: they stand behind those held, and of datagrams the last `len` that are then due are a whole one. The entry is the channel's, but that its link and its ready bytes may be new.
    pub fn append(&mut self, n: ChannelNumber, c: Channel, way: Way, bytes: &[u8], len: usize)
        requires numbered { Numbered self.old.ledger self.old.pool n × Marks c (entry_in self.old.ledger n) }
        requires bytes_len_bound { length bytes.now ≤ room (chan (view self.old) n) way }
        requires len_bound { (len ≤ 65535) × (length (queue (chan (view self.old) n) way).lengths + min 1 len ≤ place_count) }
        ensures { Changed self.old.ledger self.old.pool n (whole (appended (marked (chan (view self.old) n) (link_of c.link) c.ready) way bytes.now) way len) self.new.ledger self.new.pool }
    {
        let at = start_of(&self.ledger, n, c.grant, way) + c.held(way);
        octets::put(&mut self.pool, at, bytes);
        put_entry(&mut self.ledger, n, c.more(way, bytes.len()));
        if c.is_stream() {
            return;
        }
        count_whole(&mut self.ledger, n, way, len);
    }

    // The first `count` bytes of a way, which begins at `at`, go: the rest move to the front.
    pub fn remove(&mut self, n: ChannelNumber, c: Channel, way: Way, at: usize, count: usize)
        requires numbered { Numbered self.old.ledger self.old.pool n × (c ≡ entry_in self.old.ledger n) × (at ≡ start_in self.old.ledger n c.grant way) }
        requires count_bound { count ≤ at_once (chan (view self.old) n) way }
        ensures { Changed self.old.ledger self.old.pool n (removed (chan (view self.old) n) way count) self.new.ledger self.new.pool }
    {
        octets::cut(&mut self.pool, at, count, at + c.held(way));
        put_entry(&mut self.ledger, n, c.less(way, count));
        if c.is_stream() {
            return;
        }
        count_less(&mut self.ledger, n, way, count);
    }

    // The channel ends: its region goes, and the later ones move down into its cells.
    pub fn close_channel(&mut self, n: ChannelNumber, grant: u16)
        requires { Numbered self.old.ledger self.old.pool n × (grant ≡ (entry_in self.old.ledger n).grant) }
        ensures { Changed self.old.ledger self.old.pool n closed self.new.ledger self.new.pool }
    {
        let at = base(&self.ledger, n);
        let free = free_cells(&self.ledger);
        let used = Pool::SIZE - Pool::CELL_SIZE * free;
        octets::cut(&mut self.pool, at, 2 * Pool::space(grant), used);
        put_entry(&mut self.ledger, n, Channel::CLOSED);
        clear_lengths(&mut self.ledger, n);
        put_free(&mut self.ledger, free + 2 * Pool::cells(grant));
    }

    // The channel is opened with a grant: an empty region comes, and the later ones move up.
    pub fn open_channel(&mut self, n: ChannelNumber, grant: u16, link: Link, carries: Carries)
        requires numbered { Numbered self.old.ledger self.old.pool n }
        requires n_value { ((chan (view self.old) n).grant ≡ 0) × (2 * cells grant ≤ unpromised (view self.old)) }
        ensures { Changed self.old.ledger self.old.pool n (fresh grant link carries) self.new.ledger self.new.pool }
    {
        let at = base(&self.ledger, n);
        let free = free_cells(&self.ledger);
        let used = Pool::SIZE - Pool::CELL_SIZE * free;
        octets::spread_at(&mut self.pool, at, 2 * Pool::space(grant), used);
        let empty = Channel {
            grant,
            link: link as u16,
            carries: carries as u16,
            ..Channel::CLOSED
        };
        put_entry(&mut self.ledger, n, empty);
        put_free(&mut self.ledger, free - 2 * Pool::cells(grant));
    }
}

// Writes the event list.
pub fn set_events(ledger: &mut [u16; Ledger::SIZE], events: Events)
    ensures { ledger.new ≡ with_list ledger.old events }
{
    ledger[Ledger::AVAILABLE_AT] = events.available as u16;
    ledger[Ledger::STATUS_AT] = events.status as u16;
}

// A count as it is told: at most FF.
pub fn capped(count: usize) -> u8
    ensures { result ≡ capped count }
{
    count.min(255) as u8
}

// Clears every number, and writes the bytes of the profile in which every place lies.
fn clear_but_profile(ledger: &mut [u16; Ledger::SIZE], profile: &[u8])
    ensures { ledger.new ≡ kept profile.now ++ replicate (ledger_size - profile_size) 0 }
{
    ledger.fill(0);
    let kept = &profile[..profile.len().min(Ledger::PROFILE)];
    for (i, byte) in kept.iter().enumerate() {
        ledger[i] = *byte as u16;
    }
}

// Writes the ledger of a fresh session: what is kept of the profile, no event, no channel, and every cell unpromised.
pub fn start_ledger(ledger: &mut [u16; Ledger::SIZE], profile: &[u8])
    ensures { ledger.new ≡ ledger_of (start profile.now) }
{
    clear_but_profile(ledger, profile);
    put_free(ledger, Pool::CELLS);
}

impl Session {
    // A fresh session from profile bytes of any length, in this record, whatever it held.
    pub fn restart(&mut self, profile: &[u8])
        ensures shows { Shows (start profile.now) self.new.ledger self.new.pool }
        ensures good { Good self.new }
    {
        self.pool.fill(0);
        start_ledger(&mut self.ledger, profile);
    }
}

// A fresh session from profile bytes of any length. Starting anew is a card reset.
pub fn start(profile: &[u8]) -> Session
    ensures shows { Shows (start profile.now) result.ledger result.pool }
    ensures good { Good result }
{
    let mut ledger = [0u16; Ledger::SIZE];
    start_ledger(&mut ledger, profile);
    Session {
        ledger,
        pool: [0u8; Pool::SIZE],
    }
}
