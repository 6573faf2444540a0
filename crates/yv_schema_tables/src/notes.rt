//! What a schema says of its modules and augments.
use std::marker::Model;
use std::rc::RcStr;
use yv_nodes::NodeId;

/// An implemented module.
#[derive(Drop)]
pub struct Module {
    /// Its name.
    pub name: RcStr,
    /// Its prefix (RFC 7950, section 7.1.4).
    pub prefix: RcStr,
    /// The number of its file.
    pub module_file: u32,
}

impl Model for Module {
    ghost use Rattle.std.specs.Rc.{rc_str_bytes};
    ghost use Rattle.yv_nodes.specs.Rows.{Module as RowsModule};

    ghost Value = { RowsModule };

    ghost view = { λ m. record { name = rc_str_bytes m.name; prefix = rc_str_bytes m.prefix; module_file = m.module_file } };
}

/// An `augment` statement at the top of a module (RFC 7950, section 7.17).
#[derive(Drop)]
pub struct AugmentNote {
    /// The number of the file of the module that has it.
    pub module_file: u32,
    /// Its argument.
    pub argument: RcStr,
    /// The number of the node to which that leads.
    pub target: NodeId,
    /// The numbers of the nodes that it adds below that one.
    pub nodes: Vec<NodeId>,
}

impl Model for AugmentNote {
    ghost use Rattle.std.specs.Rc.{rc_str_bytes};
    ghost use Rattle.yv_nodes.specs.Rows.{Note};

    ghost Value = { Note };

    ghost view = { λ n. record { module_file = n.module_file; argument = rc_str_bytes n.argument; target = n.target; nodes = n.nodes.items } };
}
