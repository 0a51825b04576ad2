// Children, and the way up to the root.
ghost use Rattle.std.specs.Prelude.{◌≡◌, not, ◌&&◌, ◌||◌, ℕ, ◌≤◌, ◌<◌, eqb};
ghost use Rattle.card.specs.Row.{entries, is_df};
ghost use Rattle.card.specs.Tree.{child_with, root_in};
ghost use Rattle.card.specs.Promised.{ParentsSmaller};

use crate::rules::can_be_child;
use crate::{ADF, DF, MF, entries, row_at};

// Returns the first child of a directory that has the identifier; the first such DF if `only_df`.
pub fn child(table: &[u8], directory: usize, only_df: bool, identifier: usize) -> Option<usize>
    ensures { result ≡ child_with table.now directory (λ r. (not only_df || is_df r) && eqb r.identifier identifier) }
{
    (0..entries(table)).find(|e| {
        let r = row_at(table, *e);
        (can_be_child(r) & (r.parent == directory))
            & ((!only_df | (r.kind == DF)) & (r.identifier == identifier))
    })
}

// Returns the MF or the ADF that entry e belongs to.
pub fn root_of(table: &[u8], e: usize) -> usize
    requires { (e < entries table.now) × ParentsSmaller table.now }
    ensures { (result ≤ e) × ((n : ℕ) → e ≤ n → result ≡ root_in n table.now e) }
{
    let r = row_at(table, e);
    if (r.kind == MF) | (r.kind == ADF) {
        return e;
    }
    let parent = r.parent;
    root_of(table, parent)
}
