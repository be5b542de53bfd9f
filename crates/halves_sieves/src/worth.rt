//! Which entries of a part of the pans are worth keeping.
ghost use Rattle.choices.specs.declared.limits.TheConstants.{PANS};
ghost use Rattle.std.specs.Prelude.{◌≡◌, ℕ, ◌-◌, ◌*◌, ◌^◌, ◌<◌, ◌≤◌, slice_index};
ghost use Rattle.halves_sieves.specs.Sieve.{Short};

use crate::bounds::Bounds;
use crate::most::with_pans;
use crate::span::Span;

// The least place an entry with `opened` pans needs so that the heaviest remaining pans can still reach the least weight.
fn short(most: &[u64; 25], bounds: Bounds, opened: usize) -> u64
    requires { bounds.limit ≤ PANS }
    ensures within { opened ≤ bounds.limit → result ≡ (bounds.least - slice_index most.now (bounds.limit - opened)) * 2 ^ 29 }
    ensures beyond { bounds.limit < opened → result ≡ 2 ^ 64 - 1 }
{
    let limit = bounds.limit as usize;
    if opened <= limit {
        bounds.least.saturating_sub(most[limit - opened]) << 29
    } else {
        u64::MAX
    }
}

/// Writes, for each count of pans that an entry of a span may open, the least place that makes it worth keeping.
///
/// From there on, the heaviest of all other pans, as many as the limit leaves, can bring it to the least weight. Counts
/// above the limit, which is at most 24, have 2^64 - 1.
pub fn worth(span: Span, bounds: Bounds, least: &mut [u64; 32])
    requires { bounds.limit ≤ PANS }
    ensures { Short bounds span.entry.pans.weights.now span.entry.skip span.entry.len least.new }
{
    let weights = span.pans.weights;
    let mut most = [0; 25];
    with_pans(&mut most, &weights[span.skip + span.len..]);
    with_pans(&mut most, &weights[..span.skip]);
    // Written in place: an array that is answered is copied.
    for (opened, place) in least.iter_mut().enumerate() {
        *place = short(&most, bounds, opened);
    }
}
