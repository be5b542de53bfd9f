//! A handful that falls into an empty pan.
ghost use Rattle.seasons.specs.Fall.{Fell, fall_refusal};

use answers::Refusal;
use choices::LIMIT;

/// So many grams (or whatever unit the scale has) fall into a pan, which has to be there and empty; pans count from 0.
///
/// Refuses more than `LIMIT` (3 at the pan), then a pan that is not there or not empty (4), and then changes nothing.
pub fn fall(weights: &mut [u32], pan: u32, grams: u32) -> Result<(), Refusal>
    ensures { Fell (fall_refusal weights.old pan grams) weights.old pan grams weights.new result }
{
    if grams > LIMIT {
        return Err(Refusal::Number(u64::from(pan)));
    }
    let at = pan as usize;
    if at >= weights.len() {
        return Err(Refusal::Line);
    }
    if weights[at] != 0 {
        return Err(Refusal::Line);
    }
    weights[at] = grams;
    Ok(())
}
