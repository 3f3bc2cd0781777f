// What the profile allows: a bit of it, the events, the bearers, and the number of channels. It stands at the front of the numbers that are lent.
#![tactic(auto)]

ghost use Rattle.std.specs.Prelude.{◌≡◌, ◌≤◌, length};
ghost use Rattle.rules.specs.Profile.{profile_size, bit, allows_event, allows_bearer, channels};

// A bit of the profile; bytes and bits are numbered from 1.
#[derive(Clone, Copy)]
pub struct Place {
    pub byte: usize,
    pub bit: u8,
}

// Whether the profile has the bit of a place set.
#[tactic(auto, using(std::proofs::lemmas::Nat::Bits::shr_and_one), unfolding(rules::specs::Profile::bit))]
pub fn allowed(profile: &[u16], place: Place) -> bool
    requires le_byte { ((1 ≤ place.byte) × (place.byte ≤ profile_size)) × ((1 ≤ place.bit) × (place.bit ≤ 8)) }
    requires profile_size_in_bounds { profile_size ≤ length profile.now }
    ensures { result ≡ bit profile.now place.byte place.bit }
{
    (profile[place.byte - 1] >> (place.bit - 1)) & 1 == 1
}

// Whether an event may be listed: it is 09 or 0A, and the profile allows it.
#[tactic(auto, using(rules::proofs::Laws::checks), unfolding(rules::specs::Profile::allows_event))]
pub fn allows_event(profile: &[u16], event: u8) -> bool
    requires { profile_size ≤ length profile.now }
    ensures { result ≡ allows_event profile.now event }
{
    match event {
        0x09 => allowed(profile, Place { byte: 6, bit: 3 }),
        0x0A => allowed(profile, Place { byte: 6, bit: 4 }),
        _ => false,
    }
}

// Whether a bearer of this type is served: 03, or 02 if the profile allows it.
#[tactic(auto, using(rules::proofs::Laws::checks), unfolding(rules::specs::Profile::allows_bearer))]
pub fn serves(profile: &[u16], kind: u8) -> bool
    requires { profile_size ≤ length profile.now }
    ensures { result ≡ allows_bearer profile.now kind }
{
    match kind {
        0x03 => true,
        0x02 => allowed(profile, Place { byte: 13, bit: 2 }),
        _ => false,
    }
}

// The number N of channels.
#[tactic(auto, unfolding(rules::specs::Profile::channels))]
pub fn channels_of(profile: &[u16]) -> usize
    requires { profile_size ≤ length profile.now }
    ensures { result ≡ channels profile.now }
{
    usize::from((profile[12] >> 5) & 7)
}
