//! Costs are gone over in blocks, so that the processor can work on several at once.
ghost use Rattle.std.specs.Prelude.{◌≡◌, ℕ, ◌+◌, ◌*◌, ◌^◌, ◌<◌, ◌≤◌, ◌⊎◌, min, length, slice_index};

/// The costs of a block.
pub const BLOCK: usize = 16;

/// More than any choice costs: no choice weighs so much.
pub const NEVER: u32 = 1 << 29;

// The block from `at` on.
fn get(room: &[u32], at: usize) -> [u32; BLOCK]
    requires { at + 16 ≤ length room.now }
    ensures { (x : ℕ) → x < 16 → slice_index result x ≡ slice_index room.now (at + x) }
{
    let mut block = [0; BLOCK];
    for x in 0..BLOCK {
        block[x] = room[at + x];
    }
    block
}

// The lesser of two costs, cost by cost, once `added` is raised.
fn lesser(kept: [u32; BLOCK], added: [u32; BLOCK], gain: u32) -> [u32; BLOCK]
    requires { (x : ℕ) → x < 16 → slice_index added x + gain < 2 ^ 32 }
    ensures { (x : ℕ) → x < 16 → slice_index result x ≡ min (slice_index kept x) (slice_index added x + gain) }
{
    let mut made = [0; BLOCK];
    for x in 0..BLOCK {
        made[x] = kept[x].min(added[x] + gain);
    }
    made
}

// Writes a block from `at` on; nothing else changes.
fn put(room: &mut [u32], at: usize, block: [u32; BLOCK])
    requires { at + 16 ≤ length room.old }
    ensures same { (j : ℕ) → (j < at) ⊎ (at + 16 ≤ j) → slice_index room.new j ≡ slice_index room.old j }
    ensures made { (x : ℕ) → x < 16 → slice_index room.new (at + x) ≡ slice_index block x }
{
    for x in 0..BLOCK {
        room[at + x] = block[x];
    }
}

/// Lowers each cost of the block from `at` on to the one in the block from `from` on and `gain` more, where that is less.
pub fn lower(room: &mut [u32], at: usize, from: usize, gain: u32)
    requires room { (at + 16 ≤ length room.old) × (from + 16 ≤ length room.old) }
    requires low { (x : ℕ) → x < 16 → slice_index room.old (from + x) + gain < 2 ^ 32 }
    ensures same { (j : ℕ) → (j < at) ⊎ (at + 16 ≤ j) → slice_index room.new j ≡ slice_index room.old j }
    ensures made { (x : ℕ) → x < 16 → slice_index room.new (at + x) ≡ min (slice_index room.old (at + x)) (slice_index room.old (from + x) + gain) }
{
    let made = lesser(get(room, at), get(room, from), gain);
    put(room, at, made);
}
