//! Handfuls that fall from a list into the empty pans.
ghost use Rattle.std.specs.Prelude.{◌≡◌, ◌<◌, length};
ghost use Rattle.seasons.specs.Handfuls.{empties, filled, hands, place};

// One handful into each empty pan, in the order of the pans' numbers, from a place of the list on and from its start
// again where it is used up; answers the place of the next one. A season keeps that place from bag to bag, and it is
// what the promise speaks of, so it is a number and not an iterator that goes round.
fn fill(weights: &mut [u32], handfuls: &[u32], from: usize) -> usize
    requires { from < length handfuls.now }
    ensures value { result ≡ place handfuls.now from (empties weights.old) }
    ensures within { result < length handfuls.now }
    ensures after { weights.new ≡ filled weights.old (hands handfuls.now from (empties weights.old)) }
{
    let mut next = from;
    for w in weights.iter_mut() {
        if *w == 0 {
            *w = handfuls[next];
            next = (next + 1) % handfuls.len();
        }
    }
    next
}

// The same from a list that may be empty: then nothing falls.
pub(crate) fn refill(weights: &mut [u32], handfuls: &[u32], from: usize) -> usize
    requires { 0 < length handfuls.now → from < length handfuls.now }
    ensures value { result ≡ place handfuls.now from (empties weights.old) }
    ensures within { 0 < length handfuls.now → result < length handfuls.now }
    ensures after { weights.new ≡ filled weights.old (hands handfuls.now from (empties weights.old)) }
{
    if handfuls.is_empty() {
        return from;
    }
    fill(weights, handfuls, from)
}
