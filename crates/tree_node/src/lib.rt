// The nodes of a restriction tree: reading one, with its children, from bytes. A reader answers the bytes that it took and how
// many nodes may still come.
#![tactic(auto)]

ghost use Rattle.std.specs.Prelude.{◌≡◌, ◌+◌, ◌^◌, ◌≤◌, ◌<◌, length};
ghost use Rattle.tree.specs.Reader.{leaf_read, branch_read, read_tree, read_list};
ghost use Rattle.tree.specs.Kinds.{is_branch};
ghost use Rattle.tree.specs.NodeTold.{node_answer, list_answer, used_of};

// A leaf as a node.
fn leaf_node(kind: u32, unread: &[u8], place: usize, nodes: u32) -> Option<(usize, u32)>
    requires { place < 2 ^ 62 }
    ensures value { result ≡ node_answer (leaf_read kind nodes place unread.now) }
    ensures result_in_bounds { used_of result ≤ length unread.now }
{
    let (_, used) = tree_leaf::read_leaf(kind, unread, place)?;
    Some((used, nodes))
}

// Whether a kind has a list of children.
pub fn is_branch(kind: u32) -> bool
    ensures { result ≡ is_branch kind }
{
    kind == tree::AND || kind == tree::OR
}

// One node, whose kind decides what follows. The unread bytes are handed on to its children.
#[cycle(branch_children_node)]
pub fn node(unread: &[u8], place: usize, levels: u32, nodes: u32) -> Option<(usize, u32)>
    requires { place + length unread.now < 2 ^ 62 }
    ensures value { result ≡ node_answer (read_tree levels nodes place unread.now) }
    ensures result_in_bounds { used_of result ≤ length unread.now }
{
    if levels == 0 || nodes == 0 || unread.len() < tree::HEAD_SIZE {
        return None;
    }
    let kind = wire_word::word(unread, 0);
    let below = levels - 1;
    let others = nodes - 1;
    if is_branch(kind) {
        branch(unread, place, below, others)
    } else if kind == tree::NOT {
        let child = &unread[tree::HEAD_SIZE..];
        let (used, left) = node(child, place + tree::HEAD_SIZE, below, others)?;
        Some((tree::HEAD_SIZE + used, left))
    } else {
        leaf_node(kind, unread, place, others)
    }
}

// An and or an or: its count of children, and its children. Which of the two it is makes no difference to what it takes.
#[cycle(branch_children_node)]
fn branch(unread: &[u8], place: usize, levels: u32, nodes: u32) -> Option<(usize, u32)>
    requires { place + length unread.now < 2 ^ 62 }
    ensures value { result ≡ node_answer (branch_read (read_tree levels) 1 nodes place unread.now) }
    ensures result_in_bounds { used_of result ≤ length unread.now }
{
    if unread.len() < tree::LIST_HEAD {
        return None;
    }
    let listed = wire_word::word(unread, tree::HEAD_SIZE);
    if listed == 0 {
        return None;
    }
    let list = &unread[tree::LIST_HEAD..];
    let (used, left) = children(list, place + tree::LIST_HEAD, listed, levels, nodes)?;
    Some((tree::LIST_HEAD + used, left))
}

// The children that are left of a list, each after its padding.
#[cycle(branch_children_node)]
fn children(
    unread: &[u8],
    place: usize,
    count: u32,
    levels: u32,
    nodes: u32,
) -> Option<(usize, u32)>
    requires { place + length unread.now < 2 ^ 62 }
    ensures value { result ≡ list_answer (read_list (read_tree levels) count nodes place unread.now) }
    ensures result_in_bounds { used_of result ≤ length unread.now }
{
    if count == 0 {
        return Some((0, nodes));
    }
    let start = wire_padding::padding(place);
    if unread.len() < start || !wire_padding::zero_at(unread, 0, start) {
        return None;
    }
    let (used, others) = node(&unread[start..], place + start, levels, nodes)?;
    let next = start + used;
    let (rest, left) = children(&unread[next..], place + next, count - 1, levels, others)?;
    Some((next + rest, left))
}
