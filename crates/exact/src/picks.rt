//! The choices of one, two, three or four pans that weigh exactly so much, as numbers: bit i is pan i. Of several choices
//! the one is answered that opens the first pan that differs. `ones` and `pairs` are the tables of tables.rt.
ghost use Rattle.choices.specs.declared.limits.TheConstants.{PANS};
ghost use Rattle.std.specs.Prelude.{◌≡◌, ℕ, ◌+◌, ◌*◌, ◌^◌, ◌<◌, ◌≤◌, length};
ghost use Rattle.exact.specs.Few.{Leads, Picks, Tells};

/// The first pan that weighs exactly `weight`, or `None`: there is none.
pub fn one(free: &[u32], weight: u32) -> Option<u32>
    requires { length free.now ≤ PANS }
    ensures { Picks 1 free.now weight result }
{
    let pan = free.iter().position(|w| *w == weight)?;
    Some(1 << pan)
}

// The first pan that, with k later pans, weighs exactly `weight`; k is what the table is for. A pan that is too heavy reads
// byte 0, which never tells of a choice, so that no weight is compared.
fn lead(free: &[u32], table: &[u8], weight: u32) -> Option<usize>
    ghost pans: { ℕ }
    requires room { weight + 1 < length table.now }
    requires table { Tells pans free.now table.now }
    ensures { Leads pans free.now weight result }
{
    (0..free.len()).find(|pan| {
        usize::from(table[weight.saturating_sub(free[*pan]) as usize]) < free.len() - *pan
    })
}

// The number of a choice that opens `pan` and, of the pans after it, those of the choice `behind`.
fn joined(pan: usize, behind: u32) -> u32
    requires { (pan < PANS) × ((behind < 2 ^ 24) × ((2 * behind + 1) * 2 ^ pan < 2 ^ 32)) }
    ensures { result ≡ (2 * behind + 1) * 2 ^ pan }
{
    (2 * behind + 1) << pan
}

/// The choice of two pans that weighs exactly `weight`, or `None`: there is none.
pub fn two(free: &[u32], ones: &[u8], weight: u32) -> Option<u32>
    requires few { length free.now ≤ PANS }
    requires room { weight + 1 < length ones.now }
    requires ones { Tells 1 free.now ones.now }
    ensures { Picks 2 free.now weight result }
{
    let pan = lead(free, ones, weight)?;
    let rest = one(&free[pan + 1..], weight - free[pan])?;
    Some(joined(pan, rest))
}

/// The choice of three pans that weighs exactly `weight`, or `None`: there is none.
pub fn three(free: &[u32], ones: &[u8], pairs: &[u8], weight: u32) -> Option<u32>
    requires few { length free.now ≤ PANS }
    requires room { (weight + 1 < length ones.now) × (weight + 1 < length pairs.now) }
    requires ones { Tells 1 free.now ones.now }
    requires pairs { Tells 2 free.now pairs.now }
    ensures { Picks 3 free.now weight result }
{
    let pan = lead(free, pairs, weight)?;
    let rest = two(&free[pan + 1..], ones, weight - free[pan])?;
    Some(joined(pan, rest))
}

/// The choice of four pans that weighs exactly `weight`, or `None`: there is none.
pub fn four(free: &[u32], ones: &[u8], pairs: &[u8], weight: u32) -> Option<u32>
    requires few { length free.now ≤ PANS }
    requires room { (weight + 1 < length ones.now) × (weight + 1 < length pairs.now) }
    requires ones { Tells 1 free.now ones.now }
    requires pairs { Tells 2 free.now pairs.now }
    ensures { Picks 4 free.now weight result }
{
    // Each pan with three later ones: a table of three pans would take longer to fill than this takes.
    for (pan, w) in free.iter().enumerate() {
        if *w <= weight {
            if let Some(rest) = three(&free[pan + 1..], ones, pairs, weight - *w) {
                return Some(joined(pan, rest));
            }
        }
    }
    None
}
