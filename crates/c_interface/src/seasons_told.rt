//! A season played on lent pans, and what it came to in numbers.
ghost use Rattle.c_interface.specs.InNumbers.{SeasonTold};
ghost use Rattle.choices.specs.Ruled.{rule_in};
ghost use Rattle.choices.specs.Stand.{stand};
ghost use Rattle.seasons.specs.Season.{season_refusal};

use crate::told::Told;
use engines::Rooms;
use seasons::season;

/// Plays so many bags in lent rooms, with the list's handfuls in between, and leaves the pans as the last bag and the
/// handfuls behind it do. Where the rooms are too small for the fast engines the scan runs, and nothing is refused for
/// it.
#[unsafe(no_mangle)]
pub extern "C" fn weigh_season(
    rule: &[u32],
    weights: &mut [u32],
    ages: &mut [u32],
    handfuls: &[u32],
    bags: u32,
    entries: &mut [u64],
    bytes: &mut [u8],
) -> Told
    ensures { SeasonTold (season_refusal 4 rule.now (stand weights.old ages.old) handfuls.now bags) (rule_in rule.now) handfuls.now bags (stand weights.old ages.old) result (stand weights.new ages.new) }
{
    let mut rooms = Rooms { entries, bytes };
    match season(rule, weights, ages, handfuls, bags, &mut rooms) {
        Ok(played) => Told {
            refusal: 0,
            bags: u64::from(played.bags),
            weight: played.weight,
            given_away: played.given_away,
        },
        Err(refusal) => Told {
            refusal: refusal.number(),
            bags: 0,
            weight: 0,
            given_away: 0,
        },
    }
}
