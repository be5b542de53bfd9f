// The known word that is nearest to what was written.
ghost use Rattle.explaining.specs.Words.{NearestOf};
ghost use Rattle.std.specs.Prelude.{IfOk};

use std::alloc::{AllocError, Global};
use strsim::generic_levenshtein;
use text::{ROWS, Word};

// How many edits there are from no known word on.
const FAR: usize = 3;

/// The word of a command that the fewest edits of a byte lead to, where two or less do.
pub fn nearest(heap: Global, name: &[u8]) -> Result<Option<Word>, AllocError>
    ensures { IfOk result (NearestOf name.now) }
{
    let mut found = None;
    let mut least = FAR;
    let rows = ROWS.as_slice();
    for (word, _, _, _) in rows {
        let edits = generic_levenshtein(heap, name, word.spelling().as_bytes())?;
        if edits < least {
            least = edits;
            found = Some(*word);
        }
    }
    Ok(found)
}
