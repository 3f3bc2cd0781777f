// From the bytes of a command to what is asked: the type's plan, the profile, and steps 2 to 8.
#![tactic(auto)]

ghost use Rattle.std.specs.Prelude.{◌≡◌, true, false, List, ℕ, ◌+◌, ◌-◌, ◌*◌, ◌≤◌, ◌<◌, length, get_or, Err};
ghost use Rattle.rules.specs.Checks.{member};
ghost use Rattle.rules.specs.Words.{Acts};
ghost use Rattle.rules.specs.Profile.{profile_size};
ghost use Rattle.rules.specs.Table.{known, bearer_fits, length_fits};
ghost use Rattle.command.specs.Plans.{PlaceFor, bit_of, needed, times_by, RowFor, PlanOf, Plans};
ghost use Rattle.command.specs.Surveys.{slots, slot_of, noted, met, place_in};
ghost use Rattle.rules.specs.AtHand.{details_told, at_hand};
ghost use Rattle.command.specs.Requests.{Frames, Firsts, details_at, the_details, Headed, Detailed, Begun, Typed, Sorts, Finds, Reads};

use objects::{Cursor, length_at, walk};
use profile::{Place, allowed};
use rules::{Action, CommandType, Details, DeviceIdentity, Ending, Limits, Results, is_addressed};

// The objects, by number.
const DETAILS: u16 = 0x01;

const DEVICES: u16 = 0x02;

const DURATION: u16 = 0x04;

const ALPHA: u16 = 0x05;

const TEXT: u16 = 0x0D;

const EVENTS: u16 = 0x19;

const ICON: u16 = 0x1E;

const TIMER: u16 = 0x24;

const TIME: u16 = 0x25;

const BEARER: u16 = 0x35;

const DATA: u16 = 0x36;

const COUNT: u16 = 0x37;

const SIZE: u16 = 0x39;

const TRANSPORT: u16 = 0x3C;

const ADDRESS: u16 = 0x3E;

const NETWORK: u16 = 0x47;

// Every object that a row may have is below this number.
const SLOTS: u16 = 72;

// What is done for a type; those that change nothing share one.
#[derive(Clone, Copy)]
pub enum Handler {
    Bare,
    EventList,
    Open,
    Close,
    Receive,
    Send,
    StartTimer,
    ManageTimer,
}

// The objects of a type: the two that it requires besides 01 and 02, which is 02 again where there is none, whether 05 and 1E may stand, and whether those of OPEN CHANNEL may.
// Kept: 02 again, and no Option: it stands in every command, so each place of a request is there, and no reader asks for it again.
#[derive(Clone, Copy)]
struct Row {
    own: u16,
    further: u16,
    named: bool,
    opening: bool,
}

// The objects of a type that has 01 and 02 alone, and of one that may also have 05 and 1E.
const BARE: Row = Row {
    own: DEVICES,
    further: DEVICES,
    named: false,
    opening: false,
};

const NAMED: Row = Row {
    named: true,
    ..BARE
};

impl Row {
    // Whether the type requires an object of a number.
    // Kept: four comparisons, since `contains` is a call for each object where the library is made for size: a command of 122 objects takes 1.4 times the instructions by it.
    #[tactic(auto, using(rules::proofs::Laws::checks), unfolding(rules::specs::Checks::member, rules::specs::Checks::some_of))]
    fn needs(self, number: u16) -> bool
        ensures { result ≡ member number (needed self) }
    {
        number == DETAILS || number == DEVICES || number == self.own || number == self.further
    }

    // How often an object of a number may stand.
    fn times(self, number: u16) -> u8
        ensures { result ≡ times_by self number }
    {
        if self.needs(number) {
            return 1;
        }
        match number {
            ALPHA | ICON => u8::from(self.named),
            TRANSPORT | NETWORK => u8::from(self.opening),
            DURATION | TEXT | ADDRESS => 2 * u8::from(self.opening),
            _ => 0,
        }
    }
}

// A type's handler, its place in the profile, and its objects.
#[derive(Clone, Copy)]
struct Plan {
    handler: Handler,
    place: Place,
    row: Row,
}

// The byte of the profile that allows the types 40 to 44, and the number below theirs: its bit 1 is for 40.
const CHANNELS_BYTE: usize = 12;

const BELOW_CHANNELS: u8 = 0x3F;

// The plan of a type from 40 to 44, which has its bit of one byte.
fn channel_plan(d: Details, handler: Handler, row: Row) -> Plan
    requires { (64 ≤ d.kind) × (d.kind ≤ 68) }
    ensures handler_value { result.handler ≡ handler }
    ensures row_value { result.row ≡ row }
    ensures place_value { PlaceFor result.place d }
{
    Plan {
        handler,
        place: Place {
            byte: CHANNELS_BYTE,
            bit: d.kind - BELOW_CHANNELS,
        },
        row,
    }
}

// The byte of the profile that allows TIMER MANAGEMENT.
const TIMERS_BYTE: usize = 8;

// The bit of that byte that allows what is done with a timer: asking has its own.
fn timer_bit(action: Action) -> u8
    ensures { result ≡ bit_of action }
{
    match action {
        Action::Ask => 2,
        _ => 1,
    }
}

// The plan of TIMER MANAGEMENT: a start requires the time too.
fn timer_plan(d: Details) -> Plan
    requires { d.kind ≡ 0x27 }
    ensures { PlanOf result d }
{
    let action = Action::from(d.qualifier);
    let place = Place {
        byte: TIMERS_BYTE,
        bit: timer_bit(action),
    };
    match action {
        Action::Start => Plan {
            handler: Handler::StartTimer,
            place,
            row: Row {
                own: TIMER,
                further: TIME,
                ..BARE
            },
        },
        _ => Plan {
            handler: Handler::ManageTimer,
            place,
            row: Row { own: TIMER, ..BARE },
        },
    }
}

// The plan of a command with these details, where its type is one of the table.
fn plan_of(d: Details) -> Option<Plan>
    ensures { Plans result d }
{
    let plan = match CommandType::try_from(d.kind).ok()? {
        CommandType::MoreTime => Plan {
            handler: Handler::Bare,
            place: Place { byte: 3, bit: 4 },
            row: BARE,
        },
        CommandType::SetUpEventList => Plan {
            handler: Handler::EventList,
            place: Place { byte: 5, bit: 1 },
            row: Row {
                own: EVENTS,
                ..BARE
            },
        },
        CommandType::TimerManagement => timer_plan(d),
        CommandType::OpenChannel => {
            let row = Row {
                own: BEARER,
                further: SIZE,
                opening: true,
                ..NAMED
            };
            channel_plan(d, Handler::Open, row)
        }
        CommandType::CloseChannel => channel_plan(d, Handler::Close, NAMED),
        CommandType::ReceiveData => channel_plan(
            d,
            Handler::Receive,
            Row {
                own: COUNT,
                ..NAMED
            },
        ),
        CommandType::SendData => channel_plan(d, Handler::Send, Row { own: DATA, ..NAMED }),
        CommandType::GetChannelStatus => channel_plan(d, Handler::Bare, BARE),
    };
    Some(plan)
}

// Whether the value of a bearer, object 35, has the length of its type.
fn bearer_fits(value: &[u8]) -> bool
    ensures { result ≡ bearer_fits value.now }
{
    match value {
        [] => false,
        [0x02, ..] => value.len() == 7,
        [0x03, ..] => value.len() == 1,
        _ => true,
    }
}

// Whether the value of an object has the length of its number.
fn fits(number: u16, value: &[u8]) -> bool
    ensures { result ≡ length_fits number value.now }
{
    let len = value.len();
    match number {
        DETAILS | TIME | TRANSPORT => len == 3,
        DEVICES | DURATION | ICON | SIZE => len == 2,
        TIMER | COUNT => len == 1,
        BEARER => bearer_fits(value),
        _ => true,
    }
}

// What a survey of the objects found: a flagged unexpected one, any unexpected one, one that counts and has a wrong length.
#[derive(Clone, Copy)]
struct Survey {
    flagged: bool,
    ignored: bool,
    misfit: bool,
}

impl Survey {
    // One object more: whether it counts, whether it has its length, and whether it is flagged.
    fn note(&mut self, counts: bool, fit: bool, flag: bool)
        ensures { self.new ≡ noted self.old counts fit flag }
    {
        if counts {
            self.misfit |= !fit;
            return;
        }
        self.ignored = true;
        self.flagged |= flag;
    }
}

// The slot of an object number: its own for each that a row may have, and 0 for all that are higher.
fn slot(number: u16) -> usize
    ensures { (result ≡ slot_of number) × (result < slots) }
{
    if number < SLOTS {
        return usize::from(number);
    }
    0
}

// What was met in each slot: how many objects, and where the value of the first starts, 0 where none stands.
// Kept: two arrays: one of pairs is 288 bytes, more than are filled without a call.
#[derive(Drop)]
struct Met {
    counts: [u8; 72],
    starts: [u16; 72],
}

impl Met {
    // One object more, whose value starts there; tells how many stand in its slot before it.
    fn meet(&mut self, number: u16, start: u16) -> u8
        requires { (length self.old.counts ≡ slots) × (length self.old.starts ≡ slots) × (get_or self.old.counts (slot_of number) 0 < 255) }
        ensures before { result ≡ get_or self.old.counts (slot_of number) 0 }
        ensures after { self.new ≡ met self.old (slot_of number) start }
    {
        let k = slot(number);
        let before = self.counts[k];
        if before == 0 {
            self.starts[k] = start;
        }
        self.counts[k] = before + 1;
        before
    }

    // Where the value of the first object of a number starts, if one stands.
    fn place(&self, number: u16) -> Option<usize>
        requires { length self.now.starts ≡ slots }
        ensures { result ≡ place_in self.now number }
    {
        match self.starts[slot(number)] {
            0 => None,
            start => Some(usize::from(start)),
        }
    }
}

// What a walk over a command's objects found: their survey, and where the values of 02, of the type's own object, of its further one and of 3C start, where they stand.
#[derive(Clone, Copy)]
struct Sorted {
    survey: Survey,
    devices: Option<usize>,
    own: Option<usize>,
    further: Option<usize>,
    transport: Option<usize>,
}

impl Sorted {
    // Nothing was found.
    const NOTHING: Sorted = Sorted {
        survey: Survey {
            flagged: false,
            ignored: false,
            misfit: false,
        },
        devices: None,
        own: None,
        further: None,
        transport: None,
    };
}

// Goes through the objects of a command whose type has this row, to the end or to a fault; the value of the first, which is 01, starts at first.
fn go_through(s: &[u8], row: Row, first: usize) -> Result<Sorted, Ending>
    requires { (length s.now ≤ 256) × Headed s.now first × RowFor row (the_details s.now) }
    ensures { Sorts result s.now row }
{
    let mut met = Met {
        counts: [0; 72],
        starts: [0; 72],
    };
    met.meet(DETAILS, first as u16);
    let mut v = Sorted::NOTHING;
    let mut c = Cursor { at: first + 3 };
    while c.at < s.len() {
        let object = c.object(s)?;
        let number = object.number;
        let start = object.start;
        let counts = met.meet(number, start as u16) < row.times(number);
        let fit = fits(number, &s[start..start + object.len]);
        v.survey.note(counts, fit, object.flagged);
        c = object.next;
    }
    v.devices = met.place(DEVICES);
    v.own = met.place(row.own);
    v.further = met.place(row.further);
    v.transport = met.place(TRANSPORT);
    Ok(v)
}

// The first byte of a command.
const COMMAND_TAG: u8 = 0xD0;

// Where a command's objects start, if its outer frame is right: D0, a length, and exactly that many bytes.
pub fn frame_start(s: &[u8]) -> Option<usize>
    ensures { Frames result s.now }
{
    if *s.first()? != COMMAND_TAG {
        return None;
    }
    let length = length_at(s, 1)?;
    if s.len() - length.start != length.count {
        return None;
    }
    Some(length.start)
}

// What is asked: the details, the handler, where it goes, whether an object was ignored, where the type's own value stands, and where those of its further object and of 3C start, if a 3C stands.
#[derive(Clone, Copy)]
pub struct Request {
    pub details: Details,
    pub handler: Handler,
    pub destination: DeviceIdentity,
    pub ignored: bool,
    pub start: usize,
    pub len: usize,
    pub further: usize,
    pub transport: Option<usize>,
}

// An error of a command: its details, and the result that is told.
#[derive(Clone, Copy)]
pub struct Wrong {
    pub details: Details,
    pub result: u8,
}

// Steps 6 to 8 of a command whose type has this plan.
fn read_known(s: &[u8], details: Details, plan: Plan, v: Sorted) -> Result<Request, u8>
    requires { Begun s.now details plan v }
    ensures { (p : List ℕ) → Typed p s.now → Finds result details p s.now }
{
    if v.survey.flagged {
        return Err(Results::DATA_NOT_UNDERSTOOD);
    }
    let (Some(devices), Some(start), Some(further)) = (v.devices, v.own, v.further) else {
        return Err(Results::VALUES_MISSING);
    };
    if v.survey.misfit {
        return Err(Results::DATA_NOT_UNDERSTOOD);
    }
    let source = DeviceIdentity(s[devices]);
    let destination = DeviceIdentity(s[devices + 1]);
    if !is_addressed(details.kind, source, destination) {
        return Err(Results::DATA_NOT_UNDERSTOOD);
    }
    Ok(Request {
        details,
        handler: plan.handler,
        destination,
        ignored: v.survey.ignored,
        start,
        // The last byte of a length, which stands before the value, is how long it is.
        len: usize::from(s[start - 1]),
        further,
        transport: v.transport,
    })
}

// Steps 4 and 5 of a command whose type is not one of the table.
fn read_unknown(s: &[u8], details: Details) -> u8
    requires { Detailed s.now details × (known details.kind ≡ false) }
    ensures { (p : List ℕ) → Finds (Err result) details p s.now }
{
    match walk(s).ending {
        Ending::End => Results::TYPE_NOT_UNDERSTOOD,
        _ => Results::DATA_NOT_UNDERSTOOD,
    }
}

// Steps 4 to 8 of a command whose type has this plan; its first value starts at first.
fn read_planned(
    profile: &[u16],
    s: &[u8],
    details: Details,
    plan: Plan,
    first: usize,
) -> Result<Request, u8>
    requires { Detailed s.now details × PlanOf plan details × Headed s.now first × (profile_size ≤ length profile.now) }
    ensures { Finds result details profile.now s.now }
{
    let Ok(v) = go_through(s, plan.row, first) else {
        return Err(Results::DATA_NOT_UNDERSTOOD);
    };
    if !allowed(profile, plan.place) {
        return Err(Results::BEYOND_CAPABILITIES);
    }
    read_known(s, details, plan, v)
}

// The details at a place.
fn details_at(s: &[u8], at: usize) -> Details
    requires { at + 3 ≤ length s.now }
    ensures { result ≡ details_at s.now at }
{
    Details {
        number: s[at],
        kind: s[at + 1],
        qualifier: s[at + 2],
    }
}

// The first of a command's objects: the details, and where their value starts.
#[derive(Clone, Copy)]
struct First {
    details: Details,
    start: usize,
}

// Step 3: the first object is 01 with length 3; none or another one is 36, a faulty one 32.
fn first_object(s: &[u8]) -> Result<First, u8>
    ensures { Firsts result s.now }
{
    if s.is_empty() {
        return Err(Results::VALUES_MISSING);
    }
    let c = Cursor { at: 0 };
    let Ok(object) = c.object(s) else {
        return Err(Results::DATA_NOT_UNDERSTOOD);
    };
    if object.number != DETAILS {
        return Err(Results::VALUES_MISSING);
    }
    if object.len != 3 {
        return Err(Results::VALUES_MISSING);
    }
    let start = object.start;
    Ok(First {
        details: details_at(s, start),
        start,
    })
}

// Steps 4 to 8 once the first object is known.
fn read_typed(profile: &[u16], s: &[u8], first: First) -> Result<Request, u8>
    requires { Detailed s.now first.details × Headed s.now first.start × (profile_size ≤ length profile.now) }
    ensures { Finds result first.details profile.now s.now }
{
    let details = first.details;
    match plan_of(details) {
        Some(plan) => read_planned(profile, s, details, plan, first.start),
        None => Err(read_unknown(s, details)),
    }
}

// Reads the bytes of a command's objects: steps 3 to 8.
pub fn read_objects(profile: &[u16], s: &[u8]) -> Result<Request, Wrong>
    requires { (length s.now ≤ 256) × (profile_size ≤ length profile.now) }
    ensures { Reads result profile.now s.now }
{
    let first = match first_object(s) {
        Ok(first) => first,
        Err(result) => {
            return Err(Wrong {
                details: Details::ZEROS,
                result,
            });
        }
    };
    match read_typed(profile, s, first) {
        Ok(request) => Ok(request),
        Err(result) => Err(Wrong {
            details: first.details,
            result,
        }),
    }
}

// The details that the outer head and the first object tell; zeros where they tell none.
pub fn details_told(s: &[u8]) -> Details
    ensures { result ≡ details_told s.now }
{
    let Some(start) = frame_start(s) else {
        return Details::ZEROS;
    };
    match first_object(&s[start..]) {
        Ok(first) => first.details,
        Err(_) => Details::ZEROS,
    }
}

// The number that tells R2.
const REFUSED_SIZE: u32 = 0x1000002;

// What command is at hand: number, type and qualifier in one number, or R2.
pub fn at_hand(s: &[u8]) -> u32
    ensures { result ≡ at_hand s.now }
{
    if s.is_empty() || Limits::COMMAND < s.len() {
        return REFUSED_SIZE;
    }
    let d = details_told(s);
    u32::from_be_bytes([0, d.number, d.kind, d.qualifier])
}
