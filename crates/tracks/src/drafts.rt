// The record of a set in a draft, while the keys of a list are added to it.
ghost use Rattle.tracks.specs.Drafts.{Begun, DraftedIs};

use crate::sets::{Full, Set, Space, insert_all};
use codec::numbers::write_two;
use layout::COUNT;

// Puts the keys of a list into a set that stands behind the first two bytes of a draft, and the new count into those two; answers
// where the set's record ends, and the count.
pub fn draft_keys(draft: &mut [u8], set: Set, list: &[u8], space: Space) -> Result<Set, Full>
    requires { Begun draft.old set list.now space }
    ensures { DraftedIs draft.old set list.now space draft.new result }
{
    let set = insert_all(&mut draft[COUNT..], set, list, space)?;
    write_two(draft, 0, set.count);
    Ok(Set {
        used: COUNT + set.used,
        ..set
    })
}
