// The restriction tree as a whole: whether bytes hold one and no more.
#![tactic(auto)]

ghost use Rattle.std.specs.Prelude.{◌≡◌};
ghost use Rattle.tree.specs.Reader.{restriction, is_tree};

// Whether the bytes hold a tree.
pub fn well_formed(bytes: &[u8]) -> bool
    ensures { result ≡ is_tree (restriction bytes.now) }
{
    if tree::BYTES_MOST < bytes.len() {
        return false;
    }
    match tree_node::node(bytes, 0, tree::LEVELS_MOST, tree::NODES_MOST) {
        Some((used, _)) => used == bytes.len(),
        None => false,
    }
}
