//! Pans, with what may be done with each.
ghost use Rattle.choices.specs.declared.limits.TheConstants.{LIMIT, PANS};
ghost use Rattle.std.specs.Prelude.{◌≡◌, ℕ, ◌≤◌, length, take, drop, slice_index};

use crate::way::Way;

/// At most 24 pans. They are two lists, since the weights are lent and the ways made for one bag.
#[derive(Clone, Copy)]
pub struct Pans<'a> {
    /// What lies in each pan, at most 1,000,000.
    pub weights: &'a [u32],
    /// What may be done with each pan.
    pub ways: &'a [Way],
    ghost few: { length weights.now ≤ PANS },
    ghost paired: { length ways.now ≡ length weights.now },
    ghost light: { (i : ℕ) → slice_index weights.now i ≤ LIMIT },
}

impl<'a> Pans<'a> {
    /// The pans before `mid`, and those from it on. `mid` is at most the number of pans.
    pub fn split_at(self, mid: usize) -> (Pans<'a>, Pans<'a>)
        requires { mid ≤ length self.weights.now }
        ensures front_weights { result.0.weights.now ≡ take mid self.entry.weights.now }
        ensures front_ways { result.0.ways.now ≡ take mid self.entry.ways.now }
        ensures back_weights { result.1.weights.now ≡ drop mid self.entry.weights.now }
        ensures back_ways { result.1.ways.now ≡ drop mid self.entry.ways.now }
    {
        let (front_weights, back_weights) = self.weights.split_at(mid);
        let (front_ways, back_ways) = self.ways.split_at(mid);
        let front = Pans {
            weights: front_weights,
            ways: front_ways,
        };
        let back = Pans {
            weights: back_weights,
            ways: back_ways,
        };
        (front, back)
    }
}
