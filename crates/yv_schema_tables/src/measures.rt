//! The numbers by which the steps of a validation are bounded.
ghost use Rattle.std.specs.Prelude.{◌≡◌, ◌<◌, ◌≤◌, ◌+◌, ◌*◌, ◌^◌, ◌||◌, length, if◌then◌else◌};
ghost use Rattle.yv_node_content.specs.Kinds.{is_list};
ghost use Rattle.yv_nodes.specs.{Tree.{count}, Rows.{below, rank, whole}};
ghost use Rattle.yv_schema_tables.specs.{Measures.{is_container, is_open, measures_of}, InnerPassage.{beside, one_of, passage_of}};

use crate::schema::Schema;
use yv_node_content::NodeKind;
use yv_nodes::{Node, NodeId};

/// What a schema measures. A validation takes no more steps than these and the size of a document
/// say. Operations, notifications and what is in them count nothing.
#[derive(Clone, Copy, Debug, PartialEq, Eq)]
pub struct Measures {
    /// The most nodes that are met at the object of the root, a container or a list: those below it
    /// at any depth, choices and cases too, but of those below a list or a presence container only
    /// the node itself. A leaf-list with several defaults counts as so many.
    pub m: u64,
    /// The most `unique` statements of a list (RFC 7950, section 7.8.3).
    pub u: u64,
    /// The most types of a node, and 1 where there are fewer: so many are tried at one value at
    /// most.
    pub w: u64,
}

// What some nodes measure.
#[derive(Clone, Copy)]
pub(crate) struct Passage {
    // The nodes that are met where they are.
    met: u64,
    // The most that are met below one node.
    most: u64,
    // The most `unique` statements of a node.
    uniques: u64,
    // The most types of a node.
    types: u64,
}

impl Schema {
    /// What the schema measures, in time linear in its nodes. It takes no memory, and calls itself
    /// as deep as the nodes are.
    pub fn measures(&self) -> Measures
        ensures { result ≡ measures_of (whole self.now) }
    {
        // Each node has a number of 32 bits and counts as 1,024 at most, so that sums fit.
        let _nodes = self.len();
        let passage = self.passage(Schema::ROOT);
        Measures {
            m: passage.met.max(passage.most),
            u: passage.uniques,
            w: passage.types.max(1),
        }
    }

    // What the nodes below this node or the root measure.
    fn passage(&self, parent: NodeId) -> Passage
        requires within { rank parent ≤ length self.now.nodes }
        requires small { count (below self.now parent) < 2 ^ 32 }
        ensures value { result ≡ passage_of (below self.now parent) }
        ensures few { result.met ≤ 1024 * count (below self.now parent) }
    {
        let mut all = Passage::NONE;
        for child in self.children(parent) {
            let inner = self.passage(*child);
            let one = one_of(self.node(*child), inner);
            all = beside(all, one);
        }
        all
    }
}

impl Passage {
    const NONE: Passage = Passage {
        met: 0,
        most: 0,
        uniques: 0,
        types: 0,
    };
}

// What a node measures, where those below it measure so much.
fn one_of(node: &Node, inner: Passage) -> Passage
    requires { inner.met < 2 ^ 42 }
    ensures value { result ≡ one_of node.now.label inner }
    ensures few { result.met ≤ 1024 + inner.met }
{
    if node.kind().is_operation_or_notification() {
        return Passage::NONE;
    }
    Passage {
        met: node.width() + counted_if(is_open(node), inner.met),
        most: counted_if(is_parent(node.kind()), inner.met).max(inner.most),
        uniques: (node.uniques().len() as u64).max(inner.uniques),
        types: (node.types().len() as u64).max(inner.types),
    }
}

// What nodes measure beside others.
fn beside(first: Passage, second: Passage) -> Passage
    requires { first.met + second.met < 2 ^ 64 }
    ensures { result ≡ beside first second }
{
    Passage {
        met: first.met + second.met,
        most: first.most.max(second.most),
        uniques: first.uniques.max(second.uniques),
        types: first.types.max(second.types),
    }
}

// Whether the nodes below this one are met where it is.
fn is_open(node: &Node) -> bool
    ensures { result ≡ is_open node.now.label }
{
    let kind = node.kind();
    kind.is_passed() || is_container(kind) && !node.presence()
}

// Whether objects are of such nodes.
fn is_parent(kind: NodeKind) -> bool
    ensures { result ≡ (is_container kind || is_list kind) }
{
    matches!(kind, NodeKind::Container | NodeKind::List)
}

fn is_container(kind: NodeKind) -> bool
    ensures { result ≡ is_container kind }
{
    matches!(kind, NodeKind::Container)
}

fn counted_if(is_counted: bool, number: u64) -> u64
    ensures { result ≡ (if is_counted then number else 0) }
{
    if is_counted { number } else { 0 }
}
