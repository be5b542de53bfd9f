//! Two parts of the pans grown in one loop, so that the processor works on both merges at once.
ghost use Rattle.choices.specs.declared.limits.TheConstants.{PANS};
ghost use Rattle.std.specs.Prelude.{◌≡◌, ℕ, ◌+◌, ◌^◌, ◌≤◌, length};
ghost use Rattle.halves_growth.specs.Entries.{Grown, Merged, Sorted};
ghost use Rattle.halves_growth.specs.Part.{Part};

use crate::sizes::Sizes;
use halves_growth::{Merge, Pan, above, all_shut, grow, merge, openable};
use halves_places::Pans;

// Merges the entries of both parts in one loop until one merge ends, then the rest of each.
fn merge_both(front: &mut [u64], first: Merge, back: &mut [u64], second: Merge)
    requires front_room { first.kept + first.added ≤ length front.old }
    requires back_room { second.kept + second.added ≤ length back.old }
    requires front_sorted { Sorted front.old first.kept }
    requires back_sorted { Sorted back.old second.kept }
    ensures front { Merged front.old front.new first.kept first.added first.gain }
    ensures back { Merged back.old back.new second.kept second.added second.gain }
{
    let mut i = first.kept;
    let mut j = first.added;
    let mut p = second.kept;
    let mut q = second.added;
    while j > 0 && q > 0 {
        let front_kept = front[i - 1];
        let front_added = front[j - 1] + first.gain;
        let back_kept = back[p - 1];
        let back_added = back[q - 1] + second.gain;
        front[i + j - 1] = front_kept.max(front_added);
        back[p + q - 1] = back_kept.max(back_added);
        let front_keeps = above(front_kept, front_added);
        let back_keeps = above(back_kept, back_added);
        i -= front_keeps;
        j -= 1 - front_keeps;
        p -= back_keeps;
        q -= 1 - back_keeps;
    }
    merge(
        front,
        Merge {
            kept: i,
            added: j,
            gain: first.gain,
        },
    );
    merge(
        back,
        Merge {
            kept: p,
            added: q,
            gain: second.gain,
        },
    );
}

// Takes one more pan into each part.
fn grow_both(
    front: &mut [u64],
    first: Pan,
    back: &mut [u64],
    second: Pan,
    sizes: Sizes,
    to: u64,
) -> Sizes
    requires front_room { sizes.front + sizes.front ≤ length front.old }
    requires back_room { sizes.back + sizes.back ≤ length back.old }
    requires front_sorted { Sorted front.old sizes.front }
    requires back_sorted { Sorted back.old sizes.back }
    ensures front { Grown to first.way first.gain front.old front.new sizes.front result.front }
    ensures back { Grown to second.way second.gain back.old back.new sizes.back result.back }
{
    if first.way.young && second.way.young {
        let front_added = openable(&front[..sizes.front], first, to);
        let back_added = openable(&back[..sizes.back], second, to);
        let one = Merge {
            kept: sizes.front,
            added: front_added,
            gain: first.gain,
        };
        let other = Merge {
            kept: sizes.back,
            added: back_added,
            gain: second.gain,
        };
        merge_both(front, one, back, other);
        Sizes {
            front: sizes.front + front_added,
            back: sizes.back + back_added,
        }
    } else {
        let grown = grow(front, sizes.front, first, to);
        let more = grow(back, sizes.back, second, to);
        Sizes {
            front: grown,
            back: more,
        }
    }
}

/// Fills two rooms with the places of all choices by the ways of two parts, sorted, and answers how many there are.
///
/// The parts have as many pans each, at most 12, and those of `front` stand before those of `back`. What is not below `to`
/// may be left out. Each room may hold anything, and has at least 2^n places for n pans of a part.
pub fn both(
    front: Pans,
    back: Pans,
    to: u64,
    front_room: &mut [u64],
    back_room: &mut [u64],
) -> Sizes
    requires same { length back.weights.now ≡ length front.weights.now }
    requires few { length front.weights.now + length front.weights.now ≤ PANS }
    requires front_room { 2 ^ length front.weights.now ≤ length front_room.old }
    requires back_room { 2 ^ length front.weights.now ≤ length back_room.old }
    ensures front { Part (length front.entry.weights.now) 0 to front.entry.weights.now front.entry.ways.now front_room.new result.front }
    ensures back { Part 0 0 to back.entry.weights.now back.entry.ways.now back_room.new result.back }
{
    let count = front.weights.len();
    front_room[0] = all_shut(count, count);
    back_room[0] = all_shut(count, 0);
    let mut sizes = Sizes { front: 1, back: 1 };
    // Counted down: `k` is a pan of each part, and tells how many stand behind it.
    for k in (0..count).rev() {
        let after = count - 1 - k;
        let first = Pan::of(front, k, count + after);
        let second = Pan::of(back, k, after);
        sizes = grow_both(front_room, first, back_room, second, sizes, to);
    }
    sizes
}
