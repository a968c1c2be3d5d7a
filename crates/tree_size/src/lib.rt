// The bytes that a node of a tree takes. The tree was judged before, so that only what its size hangs on is read again: the
// nodes of a list after the one that decides it are passed over by it.
#![tactic(auto)]

ghost use Rattle.std.specs.Prelude.{◌≡◌};
ghost use Rattle.tree.specs.HoldReady.{LeafReady, NodeReady};
ghost use Rattle.tree.specs.SizeTold.{leaf_size, NodeTakes, RestReady, RestEnds};

// A leaf of a kind.
fn leaf_size(kind: u32, unread: &[u8]) -> usize
    requires { LeafReady kind unread.now }
    ensures { result ≡ leaf_size kind unread.now }
{
    if kind == tree::CONTENT {
        let count = wire_word::word(unread, tree::PHRASE_FROM) as usize;
        let end = tree::PHRASE_FROM + 4 + 2 * count;
        let locale = end + wire_padding::padding(end);
        locale + 8
    } else {
        tree::RELATION_SIZE
    }
}

// One node. The unread bytes are handed on to its children.
#[cycle(list_end_node_size)]
pub fn node_size(unread: &[u8], levels: u32) -> usize
    requires { NodeReady unread.now levels }
    ensures { NodeTakes unread.now levels result }
{
    let kind = wire_word::word(unread, 0);
    let below = levels - 1;
    if tree_node::is_branch(kind) {
        let count = wire_word::word(unread, tree::HEAD_SIZE);
        list_end(unread, count, tree::LIST_HEAD, below)
    } else if kind == tree::NOT {
        let child = &unread[tree::HEAD_SIZE..];
        let size = node_size(child, below);
        tree::HEAD_SIZE + size
    } else {
        leaf_size(kind, unread)
    }
}

// Where the rest of a list ends: so many children from a place on. Most are property leaves, which take no call.
#[cycle(list_end_node_size)]
pub fn list_end(unread: &[u8], count: u32, from: usize, levels: u32) -> usize
    requires { RestReady unread.now levels count from }
    ensures { RestEnds unread.now levels count from result }
{
    let mut at = from;
    for measured in 0..count {
        if wire_word::word(unread, at) == tree::PROPERTY {
            at += tree::RELATION_SIZE;
            continue;
        }
        let size = node_size(&unread[at..], levels);
        at += size;
    }
    at
}
