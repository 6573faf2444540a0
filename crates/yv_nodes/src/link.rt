//! Where the paths of leafrefs lead.
ghost use Rattle.std.specs.{Prelude.{◌≡◌, ◌||◌, ◌-◌, ◌≤◌, ℕ, None, IfOk, OnOk, drop, length, replicate}, BTreeSet.{contains}, Option.{option_map}, Ordering.{nat_cmp}};
ghost use Rattle.yv_nodes.specs.{Link.{is_target, leads_to, link_in, reference_in}, InnerLinks.{links_with_rest}};

use crate::node::NodeId;
use std::alloc::{AllocError, Global};
use std::collections::BTreeSet;
use std::marker::Model;

/// The link from a leafref to its target, by its path (RFC 7950, sections 9.9.2 and 9.9.3).
#[derive(Drop)]
pub struct Link {
    /// How many `../` it begins with, each of which leaves one data node; None where it is
    /// absolute.
    pub climbs: Option<usize>,
    /// The data nodes on its way down, to the target.
    pub steps: Vec<NodeId>,
    /// The leaf or leaf-list to which it leads.
    pub target: NodeId,
    /// Whether the leafref requires an instance: else a document may have any value of the target's
    /// type.
    pub is_required: bool,
}

impl Model for Link {
    ghost use Rattle.std.specs.Prelude.{map};
    ghost use Rattle.yv_nodes.specs.Link as spec;

    ghost Value = { spec.Link };

    ghost view = { λ l. record {
      climbs = l.climbs;
      steps = map (λ n. n.0) l.steps.items;
      target = l.target.0;
      is_required = l.is_required;
    } };
}

/// The links of a schema's leafrefs, and which nodes are targets of those that require an instance.
#[derive(Drop)]
pub struct Links {
    // Those of the nodes up to the last that is a leafref: most schemas have few, and each place
    // takes the room of a link.
    links: Vec<Option<Link>>,
    // How many nodes come after it.
    rest: usize,
    targets: BTreeSet<u32>,
}

impl Model for Links {
    ghost use Rattle.std.specs.{Prelude.{◌≡◌, ℕ, List, Option}, BTreeSet.{contains}, Ordering.{nat_cmp}};
    ghost use Rattle.yv_nodes.specs.Link as spec;
    ghost use Rattle.yv_nodes.specs.InnerLinks.{links_with_rest};

    ghost Value = { List (Option spec.Link) };

    ghost view = { λ l. links_with_rest l.links.items l.rest };

    ghost invariant = { λ l. (n : ℕ) → contains nat_cmp l.targets n ≡ spec.is_target (links_with_rest l.links.items l.rest) n };
}

impl Links {
    ghost use Rattle.std.specs.Prelude.{[]};

    /// No links.
    pub fn none(alloc: Global) -> Links
        ensures { result ≡ [] }
    {
        Links {
            links: Vec::new(alloc),
            rest: 0,
            targets: BTreeSet::new(alloc),
        }
    }

    /// The links of so many nodes none of which is a leafref. It takes constant time and memory.
    pub fn blank(alloc: Global, count: usize) -> Links
        ensures { result ≡ replicate count None }
    {
        Links {
            links: Vec::new(alloc),
            rest: count,
            targets: BTreeSet::new(alloc),
        }
    }

    /// The links of nodes, each at the number of its leafref, and None at other nodes. It takes
    /// time n log n.
    pub fn new(alloc: Global, links: Vec<Option<Link>>) -> Result<Links, AllocError>
        ensures { IfOk result (λ made. made ≡ links.items) }
    {
        let targets = targets_of(alloc, links.as_slice())?;
        let mut links = links;
        let rest = drop_rest(&mut links);
        Ok(Links {
            links,
            rest,
            targets,
        })
    }

    /// The link of a leafref, whether it requires an instance or not; None where the node has none.
    pub fn reference(&self, node: NodeId) -> Option<&Link>
        ensures { option_map (λ link. link.now) result ≡ reference_in self.now node.0 }
    {
        match self.links.get(node.0 as usize) {
            Some(link) => link.as_ref(),
            None => None,
        }
    }

    /// The link of a leafref that requires an instance; None where the node isn't a such leafref,
    /// or has none.
    pub fn link(&self, node: NodeId) -> Option<&Link>
        ensures { option_map (λ link. link.now) result ≡ link_in self.now node.0 }
    {
        let link = self.reference(node)?;
        if link.is_required { Some(link) } else { None }
    }

    /// Whether some link that requires an instance has the node as its target. It takes time log n.
    pub fn is_target(&self, node: NodeId) -> bool
        ensures { result ≡ is_target self.now node.0 }
    {
        self.targets.contains(&node.0)
    }
}

// How many places there are up to that of the last link.
fn count_to_last(links: &[Option<Link>]) -> usize
    ensures within { result ≤ length links.now }
    ensures rest { drop result links.now ≡ replicate (length links.now - result) None }
{
    let mut count = links.len();
    while count > 0 {
        if links[count - 1].is_some() {
            return count;
        }
        count -= 1;
    }
    count
}

// Takes the places after that of the last link away, with their memory, and gives their number.
fn drop_rest(links: &mut Vec<Option<Link>>) -> usize
    ensures { links_with_rest links.new.items result ≡ links.old.items }
{
    let count = count_to_last(links.as_slice());
    let rest = links.len() - count;
    links.truncate(count);
    links.shrink_to_fit();
    rest
}

fn targets_of(alloc: Global, links: &[Option<Link>]) -> Result<BTreeSet<u32>, AllocError>
    ensures { IfOk result
        (λ targets. (n : ℕ) → contains nat_cmp targets n ≡ is_target links.now n) }
{
    let mut targets = BTreeSet::new(alloc);
    for link in links {
        add_target(link, &mut targets)?;
    }
    Ok(targets)
}

fn add_target(link: &Option<Link>, targets: &mut BTreeSet<u32>) -> Result<(), AllocError>
    ensures { OnOk result
        ((n : ℕ) → contains nat_cmp targets.new n
        ≡ (leads_to n link.now || contains nat_cmp targets.old n)) }
{
    match link {
        Some(link) if link.is_required => {
            targets.insert(link.target.0)?;
        }
        _ => {}
    }
    Ok(())
}
