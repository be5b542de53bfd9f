// How many pans each half has, and the room that the halves take.
ghost use Rattle.choices.specs.declared.limits.TheConstants.{PANS};
ghost use Rattle.std.specs.Prelude.{◌≡◌, ℕ, ◌/◌, ◌^◌, ◌≤◌};
ghost use Rattle.halves.specs.Entries.{half_of, room_for};

/// Room, in entries of 8 bytes, for the halves of 24 pans, which is the most that a ring has.
pub const ROOM: usize = 4096;

/// How many pans each half of so many has: all but the first one or two, shared out.
pub fn half_of(pans: usize) -> usize
    ensures { result ≡ half_of pans }
{
    pans.saturating_sub(1) / 2
}

/// How many entries so many pans have: one for each of their choices.
pub fn entries(pans: usize) -> usize
    requires { pans ≤ PANS }
    ensures { result ≡ 2 ^ pans }
{
    1 << pans
}

/// How many entries a lent room has to have for the halves of so many pans.
pub fn room_for(pans: usize) -> usize
    requires { pans ≤ PANS }
    ensures value { result ≡ room_for pans }
    ensures enough { result ≤ 4096 }
{
    2 * entries(half_of(pans))
}

/// The room for 24 pans, which is enough for every ring.
pub fn full_room() -> usize
    ensures value { result ≡ room_for 24 }
    ensures enough { (n : ℕ) → n ≤ PANS → room_for n ≤ result }
{
    ROOM
}
