//! Rows are written in blocks of bytes, so that the processor can work on many bytes at once.
ghost use Rattle.choices.specs.declared.limits.TheConstants.{LIMIT};
ghost use Rattle.std.specs.Prelude.{◌≡◌, ℕ, ◌+◌, ◌-◌, ◌*◌, ◌<◌, ◌≤◌, min, length, slice_index};
ghost use Rattle.table.specs.Rows.{Added, joined, row_at};

/// The bytes of a block.
pub const BLOCK: usize = 64;

// The least of four counts, byte by byte: both pans shut; the second or the first opened, one more; both opened, two more.
fn join(room: &[u8], shut: usize, second: usize, first: usize, both: usize) -> [u8; BLOCK]
    requires near { (shut + 64 ≤ length room.now) × (second + 64 ≤ length room.now) }
    requires far { (first + 64 ≤ length room.now) × (both + 64 ≤ length room.now) }
    ensures { (x : ℕ) → x < 64 → slice_index result x ≡ min (slice_index room.now (shut + x)) (min (min (slice_index room.now (second + x)) (min (slice_index room.now (first + x)) (min (slice_index room.now (both + x) + 1) 255)) + 1) 255) }
{
    let mut made = [0; BLOCK];
    for x in 0..BLOCK {
        let open = room[first + x].min(room[both + x].saturating_add(1));
        made[x] = room[shut + x].min(room[second + x].min(open).saturating_add(1));
    }
    made
}

// The counts of a block as they are: none is above 255.
fn join_none(room: &[u8], shut: usize) -> [u8; BLOCK]
    requires near { shut + 64 ≤ length room.now }
    ensures { (x : ℕ) → x < 64 → slice_index result x ≡ min (slice_index room.now (shut + x)) 255 }
{
    let mut made = [0; BLOCK];
    for x in 0..BLOCK {
        made[x] = room[shut + x].min(255);
    }
    made
}

// The less of two counts, byte by byte: the pan shut, or opened and one more.
fn join_one(room: &[u8], shut: usize, opened: usize) -> [u8; BLOCK]
    requires near { (shut + 64 ≤ length room.now) × (opened + 64 ≤ length room.now) }
    ensures { (x : ℕ) → x < 64 → slice_index result x ≡ min (slice_index room.now (shut + x)) (min (slice_index room.now (opened + x) + 1) 255) }
{
    let mut made = [0; BLOCK];
    for x in 0..BLOCK {
        made[x] = room[shut + x].min(room[opened + x].saturating_add(1));
    }
    made
}

// Writes a block from byte `at` on; nothing before it changes.
fn put(room: &mut [u8], at: usize, block: [u8; BLOCK])
    requires { at + 64 ≤ length room.old }
    ensures same { (j : ℕ) → j < at → slice_index room.new j ≡ slice_index room.old j }
    ensures made { (x : ℕ) → x < 64 → slice_index room.new (at + x) ≡ slice_index block x }
{
    for x in 0..BLOCK {
        room[at + x] = block[x];
    }
}

/// The block from byte `at` on. `room` reaches to its end.
pub fn get(room: &[u8], at: usize) -> [u8; BLOCK]
    requires { at + 64 ≤ length room.now }
    ensures { (x : ℕ) → x < 64 → slice_index result x ≡ slice_index room.now (at + x) }
{
    let mut block = [0; BLOCK];
    for x in 0..BLOCK {
        block[x] = room[at + x];
    }
    block
}

/// Writes `blocks` blocks of 255 from byte `from` on: no choice weighs so much. Nothing before them changes.
///
/// `never` is such a block. It is handed in, since a loop that writes a known byte is compiled to a call, which is slower.
pub fn blank(room: &mut [u8], never: [u8; BLOCK], from: usize, blocks: usize)
    requires never { (x : ℕ) → x < 64 → slice_index never x ≡ 255 }
    requires room { from + 64 * blocks ≤ length room.old }
    ensures same { (j : ℕ) → j < from → slice_index room.new j ≡ slice_index room.old j }
    ensures blank { (x : ℕ) → x < 64 * blocks → slice_index room.new (from + x) ≡ 255 }
{
    for block in 0..blocks {
        put(room, from + BLOCK * block, never);
    }
}

// Writes the block for the weights from `from` on of the row with two pans more; nothing before it changes.
//
// Weight 0 stands at byte `row` in the row without the two pans, behind a block of 255, and at byte `next` in the new row. No
// look goes further back than `most`: at most to the front of that block, and just there where the two pans reach further.
fn add_block(
    room: &mut [u8],
    row: usize,
    next: usize,
    from: usize,
    most: usize,
    first: usize,
    second: usize,
)
    requires room { (64 ≤ row) × ((row ≤ next) × (next + from + 64 ≤ length room.old)) }
    requires small { (first ≤ LIMIT) × (second ≤ LIMIT) }
    requires most { (most ≤ from + 64) × (most < first + second → from + 64 ≤ most) }
    requires blank { (j : ℕ) → j < 64 → slice_index room.old (row - 64 + j) ≡ 255 }
    ensures same { (j : ℕ) → j < next + from → slice_index room.new j ≡ slice_index room.old j }
    ensures made { (x : ℕ) → x < 64 → row_at room.new next (from + x) ≡ joined (joined (row_at room.old row) second) first (from + x) }
{
    let here = row + from;
    let made = join(
        room,
        here,
        here - second.min(most),
        here - first.min(most),
        here - (first + second).min(most),
    );
    put(room, next + from, made);
}

// Writes the blocks from `low` up to `high` of the row with two pans more; nothing before them changes. A look that would go
// past the block of 255 is cut short to its front.
fn add_near(
    room: &mut [u8],
    row: usize,
    next: usize,
    low: usize,
    high: usize,
    first: usize,
    second: usize,
)
    requires room { (64 ≤ row) × ((row + 64 * high ≤ next) × (next + 64 * high ≤ length room.old)) }
    requires small { (first ≤ LIMIT) × (second ≤ LIMIT) }
    requires blank { (j : ℕ) → j < 64 → slice_index room.old (row - 64 + j) ≡ 255 }
    ensures { Added first second row next low high room.old room.new }
{
    for block in low..high {
        let from = BLOCK * block;
        add_block(room, row, next, from, from + BLOCK, first, second);
    }
}

// As `add_near`, where from block `low` on the two pans reach back no further than to the front of the block of 255: no look
// is cut short, so each block takes fewer instructions.
fn add_far(
    room: &mut [u8],
    row: usize,
    next: usize,
    low: usize,
    high: usize,
    first: usize,
    second: usize,
)
    requires room { (64 ≤ row) × ((row + 64 * high ≤ next) × (next + 64 * high ≤ length room.old)) }
    requires small { (first ≤ LIMIT) × (second ≤ LIMIT) }
    requires far { low < high → first + second ≤ 64 * low + 64 }
    requires blank { (j : ℕ) → j < 64 → slice_index room.old (row - 64 + j) ≡ 255 }
    ensures { Added first second row next low high room.old room.new }
{
    for block in low..high {
        add_block(
            room,
            row,
            next,
            BLOCK * block,
            first + second,
            first,
            second,
        );
    }
}

// As `add_near`, where both pans weigh nothing: the row without them once more.
fn add_none(room: &mut [u8], row: usize, next: usize, low: usize, high: usize)
    requires room { (64 ≤ row) × ((row + 64 * high ≤ next) × (next + 64 * high ≤ length room.old)) }
    ensures { Added 0 0 row next low high room.old room.new }
{
    for block in low..high {
        let made = join_none(room, row + BLOCK * block);
        put(room, next + BLOCK * block, made);
    }
}

// As `add_near`, where one of the two pans weighs nothing and the other `weight`: half as much work.
fn add_one(room: &mut [u8], row: usize, next: usize, low: usize, high: usize, weight: usize)
    requires room { (64 ≤ row) × ((row + 64 * high ≤ next) × (next + 64 * high ≤ length room.old)) }
    requires small { weight ≤ LIMIT }
    requires blank { (j : ℕ) → j < 64 → slice_index room.old (row - 64 + j) ≡ 255 }
    ensures { Added weight 0 row next low high room.old room.new }
{
    for block in low..high {
        let from = BLOCK * block;
        let here = row + from;
        let made = join_one(room, here, here - weight.min(from + BLOCK));
        put(room, next + from, made);
    }
}

/// Writes the blocks from `low` up to `high` of the row with two pans more; nothing before the row changes.
///
/// Weight 0 stands at byte `row` in the row without the two pans, behind a block of 255, and at byte `next` in the new row.
/// The two pans weigh `first` and `second`, at most 1,000,000 each.
pub fn add_blocks(
    room: &mut [u8],
    row: usize,
    next: usize,
    low: usize,
    high: usize,
    first: usize,
    second: usize,
)
    requires room { (64 ≤ row) × ((row + 64 * high ≤ next) × (next + 64 * high ≤ length room.old)) }
    requires small { (first ≤ LIMIT) × (second ≤ LIMIT) }
    requires blank { (j : ℕ) → j < 64 → slice_index room.old (row - 64 + j) ≡ 255 }
    ensures same { (j : ℕ) → j < next → slice_index room.new j ≡ slice_index room.old j }
    ensures made { (x : ℕ) → 64 * low ≤ x → x < 64 * high → row_at room.new next x ≡ joined (joined (row_at room.old row) second) first x }
{
    if first + second == 0 {
        add_none(room, row, next, low, high);
        return;
    }
    if first.min(second) == 0 {
        add_one(room, row, next, low, high, first + second);
        return;
    }
    // From block `near` on the two pans reach back into the block of 255 at most.
    let near = ((first + second) / BLOCK).max(low).min(high);
    add_near(room, row, next, low, near, first, second);
    add_far(room, row, next, near, high, first, second);
}
