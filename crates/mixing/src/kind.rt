//! The kind of bag that has so much of each kind.
ghost use Rattle.std.specs.Prelude.{◌≡◌, ℕ, ◌*◌, ◌+◌, ◌<◌, ◌≤◌, length, slice_index, take};
ghost use Rattle.choices.specs.Stand.{InOrder, RuleWithin, stand};
ghost use Rattle.kinds.specs.Kinds.{mixes};
ghost use Rattle.order.specs.Order.{Found};
ghost use Rattle.choices.specs.Ruled.{rule_in};
ghost use Rattle.mixing.specs.Refusals.{many};
ghost use Rattle.mixing.specs.Kind.{IsMix, mix_age, mix_allows, mix_lawful, mix_least, mix_ready, mix_top, same_mix};
ghost use Rattle.mixing.specs.Sizes.{rooms_size};
ghost use Rattle.mixing.specs.Windows.{window_at, windows_at};

use crate::rooms::{MixRooms, find_mix};
use choices::{LIMIT, Ring, Rule};
use engines::Kind;
use kinds::{KINDS, MixedRing, Window};
use order::Bag;

/// A rule for the whole bag, the windows of its kinds, and the kind of each pan.
#[derive(Clone, Copy)]
pub struct Mix<'a> {
    /// The rule for the whole bag.
    pub rule: Rule,
    /// The windows, of which the first `many` count.
    pub windows: [Window; 4],
    /// For how many kinds there is a window.
    pub many: usize,
    /// The kind of each pan, from 0 on.
    pub kinds: &'a [u32],
}

// The windows that stand in a rule behind its four numbers, two numbers for each kind.
pub(crate) fn windows_of(rule: &[u32], many: usize) -> [Window; 4]
    requires few { many ≤ KINDS }
    requires there { 2 * many + 4 ≤ length rule.now }
    ensures { take many result ≡ windows_at rule.now 0 many }
{
    let mut windows = [Window { least: 0, most: 0 }; KINDS];
    for kind in 0..many {
        windows[kind] = Window {
            least: rule[2 * kind + 4],
            most: rule[2 * kind + 5],
        };
    }
    windows
}

/// The kind of bag of a checked rule in numbers and of the kinds of the pans.
pub(crate) fn mix_of<'a>(whole: Rule, rule: &[u32], kinds: &'a [u32]) -> Mix<'a>
    requires whole { whole ≡ rule_in rule.now }
    requires few { many rule.now ≤ KINDS }
    requires there { 4 ≤ length rule.now }
    ensures same { IsMix rule.now kinds.now result }
    ensures many { result.many ≡ many rule.now }
{
    let many = (rule.len() - 4) / 2;
    Mix {
        rule: whole,
        windows: windows_of(rule, many),
        many,
        kinds,
    }
}

// The best of all choices that fit a rule and have so much of each kind, in the lent rooms. All is lent for one and the same
// time, since a mixed ring holds it so.
fn find_by<'x>(
    rule: Rule,
    windows: &'x [Window],
    kinds: &'x [u32],
    weights: &'x [u32],
    ages: &'x [u32],
    rooms: &mut MixRooms,
) -> Option<Bag>
    requires pans { InOrder (stand weights.now ages.now) }
    requires ruled { RuleWithin LIMIT rule }
    requires some { 1 ≤ length windows.now }
    requires few { length windows.now ≤ KINDS }
    requires paired { length kinds.now ≡ length weights.now }
    requires known { (i : ℕ) → slice_index kinds.now i < length windows.now }
    ensures found { Found (mixes rule windows.now kinds.now weights.now ages.now) weights.now result }
    ensures keys { length rooms.new.keys.now ≡ length rooms.old.keys.now }
    ensures entries { length rooms.new.entries.now ≡ length rooms.old.entries.now }
{
    let ring = Ring {
        rule,
        weights,
        ages,
    };
    let mixed = MixedRing {
        ring,
        kinds,
        windows,
    };
    find_mix(mixed, rooms)
}

impl<'a, 'b> Kind<MixRooms<'b>> for Mix<'a> {
    ghost allows = { mix_allows };

    ghost age = { mix_age };

    ghost least = { mix_least };

    ghost top = { mix_top };

    ghost after = { same_mix };

    ghost ready = { mix_ready };

    ghost size = { rooms_size };

    ghost lawful = { mix_lawful };

    fn best(&self, weights: &[u32], ages: &[u32], rooms: &mut MixRooms<'b>) -> Option<Bag> {
        let windows = &self.windows[..self.many];
        find_by(self.rule, windows, self.kinds, weights, ages, rooms)
    }

    fn made(&mut self, _pans: usize, _weight: u32)
        ensures { self.new ≡ same_mix self.old _weight }
    {}
}
