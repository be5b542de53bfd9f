//! What a bag leaves behind in the lent pans: opened ones empty and young, all others a bag older.
ghost use Rattle.std.specs.Prelude.{◌≡◌, ℕ, ◌+◌, ◌^◌, ◌<◌, cond, length, slice_index};
ghost use Rattle.choices.specs.Choice.{marked};
ghost use Rattle.choices.specs.Numbered.{choice_from};

// Sets to 0 what a bag's number opens, and adds so much to all else.
pub(crate) fn mark(numbers: &mut [u32], pans: u32, more: u32)
    requires { (i : ℕ) → slice_index numbers.old i + more < 2 ^ 32 }
    ensures { numbers.new ≡ marked (λ c x. cond c 0 (x + more)) numbers.old (choice_from (length numbers.old) pans) }
{
    let mut left = pans;
    for x in numbers.iter_mut() {
        *x = if left % 2 == 1 { 0 } else { *x + more };
        left /= 2;
    }
}
