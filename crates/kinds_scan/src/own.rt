//! The weights of one kind alone.
ghost use Rattle.std.specs.Prelude.{◌≡◌, length, take};
ghost use Rattle.kinds.specs.Kinds.{of_kind};

use choices::PANS;
use kinds::MixedRing;

// What lies in each pan of a kind, and 0 in the others; as many as the ring has pans count.
pub(crate) fn own_weights(mixed: MixedRing, kind: usize) -> [u32; 24]
    ensures { take (length mixed.entry.ring.weights.now) result ≡ of_kind kind mixed.entry.kinds.now mixed.entry.ring.weights.now }
{
    let mut own = [0; PANS];
    for (i, w) in mixed.ring.weights.iter().enumerate() {
        own[i] = if mixed.kinds[i] as usize == kind {
            *w
        } else {
            0
        };
    }
    own
}
