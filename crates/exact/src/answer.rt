//! The best bag of a ring, where it weighs exactly the target.
ghost use Rattle.std.specs.Prelude.{length};
ghost use Rattle.exact.specs.Answers.{Answers};

use crate::few::few;
use crate::free::{free_weights, heaviest};
use crate::old::old_pans;
use choices::{PANS, Ring};
use order::Bag;

/// The best bag of a ring, if it can weigh exactly the target with at most four pans besides the old ones.
///
/// Answers `None` where no such choice fits the ring's rule, and may do so where `room` is shorter than 2 * (target + 2)
/// bytes. `room` may hold anything; its contents are unspecified afterwards.
pub fn best(ring: Ring, room: &mut [u8]) -> Option<Bag>
    ensures { Answers ring.entry.rule ring.entry.weights.now ring.entry.ages.now (length room.old) result }
{
    let rule = ring.rule;
    let old = old_pans(ring);
    if !old.filled || old.pans > rule.pans || old.weight > rule.target {
        return None;
    }
    let left = rule.target - old.weight;
    let mut pans = [0; PANS];
    let free = &mut pans[..ring.weights.len()];
    free_weights(ring, free);
    let wide = left as usize + 2;
    if 4 * heaviest(free, left) < left || room.len() < 2 * wide {
        return None;
    }
    let (ones, pairs) = room[..2 * wide].split_at_mut(wide);
    let more = few(free, left, rule.pans - old.pans, ones, pairs)?;
    Some(Bag {
        pans: old.number + more,
        weight: rule.target,
    })
}
