// The two halves in a lent room, and the pans before them: filled once, and asked for the next choice from any place on.
ghost use Rattle.std.specs.Prelude.{◌≡◌, ℕ, ◌+◌, ◌-◌, ◌*◌, ◌^◌, ◌<◌, ◌≤◌, length, slice_index, take};
ghost use Rattle.halves_growth.specs.Part.{Part};
ghost use Rattle.halves.specs.Asked.{FirstSum};
ghost use Rattle.halves.specs.Half.{Half};
ghost use Rattle.halves.specs.Next.{Filled, Next};
ghost use Rattle.halves.specs.Entries.{before, half_of, room_for};
ghost use Rattle.halves_sieves.specs.Sieve.{part as part_of};
ghost use Rattle.halves_sweeps.specs.Sweep.{Apart};

use crate::filled::Halves;
use crate::rooms::{entries, half_of};
use halves_growth::part;
use halves_pairs::both;
use halves_places::Pans;
use halves_sieves::{Bounds, Span, thin};
use halves_sweeps::{Lists, least};

// The entries of the one or two pans before the halves; gives how many there are.
fn topped(pans: Pans, half: usize, bounds: Bounds, tops: &mut [u64; 4]) -> usize
    requires { half ≡ half_of (length pans.weights.now) }
    ensures tops { Half bounds pans.entry.weights.now pans.entry.ways.now 0 (before (length pans.entry.weights.now)) tops.new result }
    ensures few { result ≤ 4 }
{
    let behind = half + half;
    let len = pans.weights.len() - behind;
    let (first, _) = pans.split_at(len);
    let made = part(first, behind, bounds.to, tops);
    let span = Span { pans, skip: 0, len };
    thin(span, bounds, &mut tops[..made])
}

// What is worth keeping of the entries of a half.
fn kept<'a>(span: Span, bounds: Bounds, es: &'a mut [u64]) -> &'a [u64]
    requires { Part (length span.pans.weights.now - (span.skip + span.len)) 0 bounds.to (part_of span.skip span.len span.pans.weights.now) (part_of span.skip span.len span.pans.ways.now) es.old (length es.old) }
    ensures { Half bounds span.entry.pans.weights.now span.entry.pans.ways.now span.entry.skip span.entry.len result.now (length result.now) }
{
    let n = thin(span, bounds, es);
    &es[..n]
}

// The entries of both halves, each in a room of its own.
fn halved<'a>(pans: Pans, half: usize, bounds: Bounds, room: &'a mut [u64]) -> Lists<'a>
    requires half { half ≡ half_of (length pans.weights.now) }
    requires room { room_for (length pans.weights.now) ≤ length room.old }
    ensures front { Half bounds pans.entry.weights.now pans.entry.ways.now (before (length pans.entry.weights.now)) half result.front.now (length result.front.now) }
    ensures back { Half bounds pans.entry.weights.now pans.entry.ways.now (before (length pans.entry.weights.now) + half) half result.back.now (length result.back.now) }
{
    let skip = pans.weights.len() - (half + half);
    let (_, behind) = pans.split_at(skip);
    let (first, last) = behind.split_at(half);
    let (front_room, back_room) = room.split_at_mut(entries(half));
    let made = both(first, last, bounds.to, front_room, back_room);
    let one = Span {
        pans,
        skip,
        len: half,
    };
    let other = Span {
        pans,
        skip: skip + half,
        len: half,
    };
    Lists {
        front: kept(one, bounds, &mut front_room[..made.front]),
        back: kept(other, bounds, &mut back_room[..made.back]),
    }
}

/// Fills a lent room with the choices of the pans that their ways allow, that open at most `limit` pans, weigh `least`
/// or more and have a place below `to`.
///
/// The room has at least [`room_for`](crate::room_for) entries, and stays lent.
pub fn fill<'a>(pans: Pans, limit: u32, least: u32, to: u64, room: &'a mut [u64]) -> Halves<'a>
    requires { room_for (length pans.weights.now) ≤ length room.old }
    ensures filled { Filled pans.entry.weights.now pans.entry.ways.now result }
    ensures limit { result.bounds.limit ≡ limit }
    ensures least { result.bounds.least ≡ least }
    ensures to { result.bounds.to ≡ to }
{
    let bounds = Bounds {
        limit: u64::from(limit),
        least: u64::from(least),
        to,
    };
    let half = half_of(pans.weights.len());
    let mut tops = [0; 4];
    let top = topped(pans, half, bounds, &mut tops);
    let lists = halved(pans, half, bounds, room);
    Halves {
        tops,
        top,
        lists,
        bounds,
    }
}

// The first place from `from` on, below the end of what the halves hold, of a top and an entry of each half together.
pub(crate) fn first_place(halves: Halves, from: u64) -> Option<u64>
    requires few { length (take halves.top halves.tops) ≤ 4 }
    requires low { (i : ℕ) → i < length (take halves.top halves.tops) → slice_index (take halves.top halves.tops) i < 2 ^ 62 }
    requires apart { Apart (take halves.top halves.tops) halves.lists.front.now halves.lists.back.now }
    ensures { FirstSum halves.entry from result }
{
    let to = halves.bounds.to;
    let tops = &halves.tops[..halves.top];
    let found = least(tops, halves.lists, halves.bounds.limit, from, to);
    (found < to).then_some(found)
}

/// The first place from `from` on of a choice that is allowed: that opens and leaves shut what the pans' ways allow,
/// opens no more pans than the halves' limit, and comes before their end. `None` where there is none.
///
/// The halves hold no choice that weighs less than their least, so `from` is at least that weight's first place.
pub fn next(pans: Pans, halves: Halves, from: u64) -> Option<u64>
    requires filled { Filled pans.weights.now pans.ways.now halves }
    requires enough { halves.bounds.least * 2 ^ 29 ≤ from }
    ensures { Next halves.entry.bounds.limit pans.entry.weights.now pans.entry.ways.now from halves.entry.bounds.to result }
{
    first_place(halves, from)
}
