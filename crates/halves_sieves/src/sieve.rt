//! Entries that are worth keeping move to the front.
ghost use Rattle.std.specs.Prelude.{◌≡◌, ◌+◌, ◌≤◌, length};
ghost use Rattle.halves_growth.specs.Entries.{Rises};
ghost use Rattle.halves_sieves.specs.Sieve.{Sieved, Thinned};

use crate::bounds::Bounds;
use crate::span::Span;
use crate::worth::worth;
use halves_growth::above;
use halves_places::pans_in;

// Keeps each entry that is no less than what `short` says for its count of pans, and answers how many are kept. There is no
// branch on what is compared.
fn sieve(es: &mut [u64], short: &[u64; 32]) -> usize
    requires { Rises es.old (length es.old) }
    ensures { Sieved short.now es.old es.new (length es.old) result }
{
    let mut left = 0;
    // By index, since it reads and writes one slice at two places.
    for i in 0..es.len() {
        let entry = es[i];
        es[left] = entry;
        left += 1 - above(short[pans_in(entry) as usize], entry);
    }
    left
}

// So few entries are swept over sooner than sieved (measured, see bench/).
const FEW: usize = 128;

/// Moves the entries of a span that are worth keeping to the front, still sorted, and answers how many there are.
///
/// Each entry that is part of a choice within the bounds is kept. `es` is sorted. Nothing is left out where the limit is no
/// less than the number of all pans, nor where there are few entries.
pub fn thin(span: Span, bounds: Bounds, es: &mut [u64]) -> usize
    requires { Rises es.old (length es.old) }
    ensures { Thinned bounds span.entry.pans.weights.now span.entry.skip span.entry.len es.old es.new (length es.old) result }
{
    if es.len() > FEW && bounds.limit < span.pans.weights.len() as u64 {
        let mut least = [0; 32];
        worth(span, bounds, &mut least);
        sieve(es, &least)
    } else {
        es.len()
    }
}
