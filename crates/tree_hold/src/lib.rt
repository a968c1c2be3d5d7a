// Whether a tree holds for a row. The tree was judged before, so that nothing of it is judged again for each row: the
// words of its nodes are read where they stand. Each reader is handed the unread bytes from its node's first one on. Nodes
// take multiples of four bytes, so that none needs padding before it, and padding in a leaf counts from its own first byte.
#![tactic(auto)]

ghost use Rattle.std.specs.Prelude.{◌≡◌, true, ◌+◌, ◌≤◌, length};
ghost use Rattle.catalogue.specs.CataloguePlaces.{row_of};
ghost use Rattle.catalogue.specs.CatalogueReady.{FieldsReady};
ghost use Rattle.tree.specs.TreeHolds.{held_by};
ghost use Rattle.tree.specs.Reader.{restriction, is_tree};
ghost use Rattle.tree.specs.LeafPlaces.{locale_at};
ghost use Rattle.tree.specs.HoldTold.{relation_told, content_told, leaf_told, NodeTold, ListTold, ListHolds};
ghost use Rattle.tree.specs.HoldReady.{LeafReady, NodeReady, ListReady};

use catalogue::Fields;
use tree::Verdict;

// Where the number of a leaf's property stands, and where the units of a phrase begin.
const RELATION_PROPERTY_AT: usize = tree::RELATION_SPEC_AT + wire::PR_SPEC_AT;

const CONTENT_PROPERTY_AT: usize = tree::CONTENT_SPEC_AT + wire::PR_SPEC_AT;

const UNITS_AT: usize = tree::PHRASE_FROM + 4;

// A property leaf. The relation and the value are read last, beside the test of them.
fn relation_told(unread: &[u8], row: &Fields) -> Verdict
    requires { 44 ≤ length unread.now }
    ensures { result ≡ relation_told unread.now row.now }
{
    let property = wire_word::word(unread, RELATION_PROPERTY_AT);
    let mine = catalogue_field::number_of(property, row);
    let relop = wire_word::word(unread, tree::RELOP_AT);
    let value = wire_word::word(unread, tree::VALUE_AT) as u64;
    let holds = tree_match::relation_holds(relop, mine, value);
    Verdict {
        holds,
        used: tree::RELATION_SIZE,
    }
}

// A content leaf.
fn content_told(unread: &[u8], catalogue: &[u8], row: &Fields) -> Verdict
    requires { (locale_at unread.now 0 + 8 ≤ length unread.now) × FieldsReady catalogue.now row.now }
    ensures { result ≡ content_told unread.now catalogue.now row.now }
{
    let property = wire_word::word(unread, CONTENT_PROPERTY_AT);
    let count = wire_word::word(unread, tree::PHRASE_FROM) as usize;
    let end = UNITS_AT + 2 * count;
    let locale = end + wire_padding::padding(end);
    let method = wire_word::word(unread, locale + 4);
    let text = catalogue_field::text_of(property, row);
    let holds = tree_match::phrase_holds(&unread[UNITS_AT..end], method, catalogue, text);
    Verdict {
        holds,
        used: locale + 8,
    }
}

// A leaf of a kind.
fn leaf_told(kind: u32, unread: &[u8], catalogue: &[u8], row: &Fields) -> Verdict
    requires { LeafReady kind unread.now × FieldsReady catalogue.now row.now }
    ensures { result ≡ leaf_told kind unread.now (row_of catalogue.now row.now) }
{
    if kind == tree::CONTENT {
        content_told(unread, catalogue, row)
    } else {
        relation_told(unread, row)
    }
}

// One node, whatever it is: a list is measured, and then asked for its answer alone. The unread bytes are handed on to its
// children.
#[cycle(child_told_list_holds_list_told_near_told_node_told)]
fn node_told(unread: &[u8], levels: u32, catalogue: &[u8], row: &Fields) -> Verdict
    requires { NodeReady unread.now levels × FieldsReady catalogue.now row.now }
    ensures { NodeTold unread.now levels (row_of catalogue.now row.now) result }
{
    let kind = wire_word::word(unread, 0);
    let below = levels - 1;
    if tree_node::is_branch(kind) {
        let used = tree_size::node_size(unread, levels);
        let holds = list_holds(kind, unread, below, catalogue, row);
        Verdict { holds, used }
    } else if kind == tree::NOT {
        let child = &unread[tree::HEAD_SIZE..];
        let turned = tree_verdict::turned(node_told(child, below, catalogue, row));
        Verdict {
            holds: turned.holds,
            used: tree::HEAD_SIZE + turned.used,
        }
    } else {
        leaf_told(kind, unread, catalogue, row)
    }
}

// The same with a leaf answered first: a property leaf then takes no call, and most children are such.
#[cycle(child_told_list_holds_list_told_near_told_node_told)]
fn child_told(unread: &[u8], levels: u32, catalogue: &[u8], row: &Fields) -> Verdict
    requires { NodeReady unread.now levels × FieldsReady catalogue.now row.now }
    ensures { NodeTold unread.now levels (row_of catalogue.now row.now) result }
{
    let kind = wire_word::word(unread, 0);
    if tree::CONTENT <= kind {
        leaf_told(kind, unread, catalogue, row)
    } else {
        node_told(unread, levels, catalogue, row)
    }
}

// The same with a list answered next, measured as it is asked: written into its one caller, it takes no call.
#[cycle(child_told_list_holds_list_told_near_told_node_told)]
fn near_told(unread: &[u8], levels: u32, catalogue: &[u8], row: &Fields) -> Verdict
    requires { NodeReady unread.now levels × FieldsReady catalogue.now row.now }
    ensures { NodeTold unread.now levels (row_of catalogue.now row.now) result }
{
    let kind = wire_word::word(unread, 0);
    let below = levels - 1;
    if tree_node::is_branch(kind) {
        list_told(kind, unread, below, catalogue, row)
    } else {
        child_told(unread, levels, catalogue, row)
    }
}

// An and or an or, child by child up to the one that decides; those after it are only measured.
#[cycle(child_told_list_holds_list_told_near_told_node_told)]
fn list_told(kind: u32, unread: &[u8], levels: u32, catalogue: &[u8], row: &Fields) -> Verdict
    requires { ListReady kind unread.now levels × FieldsReady catalogue.now row.now }
    ensures { ListTold kind unread.now levels (row_of catalogue.now row.now) result }
{
    let mut left = wire_word::word(unread, tree::HEAD_SIZE);
    let mut at = tree::LIST_HEAD;
    while 0 < left {
        left -= 1;
        let part = &unread[at..];
        let holds = if wire_word::word(part, 0) == tree::PROPERTY {
            at += tree::RELATION_SIZE;
            relation_told(part, row).holds
        } else {
            let child = child_told(part, levels, catalogue, row);
            at += child.used;
            child.holds
        };
        if tree_verdict::decides(kind, holds) {
            let used = tree_size::list_end(unread, left, at, levels);
            return Verdict { holds, used };
        }
    }
    Verdict {
        holds: kind == tree::AND,
        used: at,
    }
}

// The same where nothing follows the list: its end is not asked for.
#[cycle(child_told_list_holds_list_told_near_told_node_told)]
fn list_holds(kind: u32, unread: &[u8], levels: u32, catalogue: &[u8], row: &Fields) -> bool
    requires { ListReady kind unread.now levels × FieldsReady catalogue.now row.now }
    ensures { ListHolds kind unread.now levels (row_of catalogue.now row.now) result }
{
    let mut more = wire_word::word(unread, tree::HEAD_SIZE);
    let mut at = tree::LIST_HEAD;
    while 0 < more {
        more -= 1;
        let part = &unread[at..];
        if wire_word::word(part, 0) == tree::PROPERTY {
            let leaf = relation_told(part, row);
            at += tree::RELATION_SIZE;
            if tree_verdict::decides(kind, leaf.holds) {
                return leaf.holds;
            }
            continue;
        }
        let child = near_told(part, levels, catalogue, row);
        at += child.used;
        if tree_verdict::decides(kind, child.holds) {
            return child.holds;
        }
    }
    kind == tree::AND
}

// Whether a tree holds for a row. Most trees are a list or a leaf at their root.
pub fn holds(tree: &[u8], catalogue: &[u8], row: &Fields) -> bool
    requires { (is_tree (restriction tree.now) ≡ true) × FieldsReady catalogue.now row.now }
    ensures { result ≡ held_by (restriction tree.now) (row_of catalogue.now row.now) }
{
    let kind = wire_word::word(tree, 0);
    if tree_node::is_branch(kind) {
        list_holds(kind, tree, tree::LEVELS_MOST - 1, catalogue, row)
    } else if kind == tree::NOT {
        node_told(tree, tree::LEVELS_MOST, catalogue, row).holds
    } else {
        leaf_told(kind, tree, catalogue, row).holds
    }
}
