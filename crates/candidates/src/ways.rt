//! Where walks from the root lead, however that is stored.
ghost use Rattle.std.specs.Prelude.{◌≡◌};

use routes::{Node, Root, Way};

/// The ways to the nodes of a database, as the calculation of routes needs them (RFC 2328, section
/// 16.1).
pub trait Ways {
    ghost use Rattle.std.specs.Prelude.{IsTrue, Option};
    ghost use Rattle.candidates.specs.Reached.{alone, way_in};
    ghost use Rattle.routes.specs.declared.graph.Way.{Way as WayTo};
    ghost use Rattle.routes.specs.declared.node.Node.{Node as NodeAt};

    ghost ways: { Self → NodeAt → Option WayTo };

    /// The way to a node; `None` if no walk leads there.
    fn way_to(&self, node: &Node) -> Option<Way>
        ensures { result ≡ ways self.now node.now };

    /// Whether certainly no walk leads to another node than the root. `false` says nothing.
    fn reach_root_alone(&self, root: &Root) -> bool
        ensures { IsTrue result → (node : NodeAt)
            → ways self.now node ≡ way_in (alone root.now) node };
}
