// How SELECT finds an entry.
ghost use Rattle.std.specs.Prelude.{◌≡◌, ◌≤◌, ◌<◌, length};
ghost use Rattle.card.specs.Row.{entries};
ghost use Rattle.session.specs.Promised.{StandsIn};
ghost use Rattle.session.specs.Select as spec;

use card::tree::child;

// Returns entry e, if it has the identifier.
fn if_named(table: &[u8], e: usize, identifier: usize) -> Option<usize>
    requires { e < entries table.now }
    ensures { result ≡ spec.if_named table.now e identifier }
{
    (card::row_at(table, e).identifier == identifier).then_some(e)
}

// Returns the parent of a directory if it has the identifier, or else the DF child of that parent which has it.
#[tactic(auto, unfolding(crate::specs::Select::above, card::specs::Tree::child_df))]
fn above(table: &[u8], parent: usize, identifier: usize) -> Option<usize>
    requires { parent < entries table.now }
    ensures { result ≡ spec.above table.now parent identifier }
{
    if_named(table, parent, identifier).or_else(|| child(table, parent, true, identifier))
}

// Returns what an identifier finds from a root and a directory: "P1 00".
fn by_identifier(table: &[u8], root: usize, directory: usize, identifier: usize) -> Option<usize>
    requires { StandsIn table.now root directory }
    ensures { result ≡ spec.by_identifier table.now root directory identifier }
{
    let named = if_named(table, root, identifier);
    let found = named.or_else(|| child(table, directory, false, identifier));
    if directory == root {
        return found;
    }
    let parent = card::row_at(table, directory).parent;
    found.or_else(|| above(table, parent, identifier))
}

// Returns what a path of identifiers finds from the entry `from` on, each a child of the one before.
fn by_path(table: &[u8], from: usize, path: &[u8]) -> Option<usize>
    ensures { result ≡ spec.by_path table.now from path.now }
{
    if path.len() % 2 != 0 {
        return None;
    }
    let mut e = from;
    for identifier in path.chunks_exact(2) {
        e = child(table, e, false, octets::num_at(identifier, 0))?;
    }
    Some(e)
}

// Returns the entry that a SELECT finds, from a root and a directory, with its P1 and data.
#[tactic(auto, unfolding(crate::specs::Select::find, octets::specs::Choice::pick))]
pub fn find(table: &[u8], root: usize, directory: usize, p1: usize, data: &[u8]) -> Option<usize>
    requires { StandsIn table.now root directory × (2 ≤ length «data».now) }
    ensures { result ≡ spec.find table.now root directory p1 «data».now }
{
    if p1 == 0 {
        return by_identifier(table, root, directory, octets::num_at(data, 0));
    }
    if p1 == 8 {
        return by_path(table, root, data);
    }
    by_path(table, directory, data)
}
