//! The kinds of nodes.
ghost use Rattle.std.specs.Prelude.{◌≡◌};
ghost use Rattle.readers.specs.Kinds.{node_kind, number_count, nodes_taken};

use words::{Kind as WordKind, UnknownKind};

/// What a node is, by the kind of its word.
#[derive(Clone, Copy, PartialEq, Eq, Debug)]
pub enum NodeKind {
    Ball,
    Block,
    Unite,
    Meet,
    Shift,
    Thicken,
}

impl TryFrom<u32> for NodeKind {
    type Error = UnknownKind;

    ghost try_from_gives = { λ n r. r ≡ node_kind n };

    fn try_from(n: u32) -> Result<NodeKind, UnknownKind> {
        match WordKind::try_from(n)? {
            WordKind::Ball => Ok(NodeKind::Ball),
            WordKind::Block => Ok(NodeKind::Block),
            WordKind::Unite => Ok(NodeKind::Unite),
            WordKind::Meet => Ok(NodeKind::Meet),
            WordKind::Shift => Ok(NodeKind::Shift),
            WordKind::Thicken => Ok(NodeKind::Thicken),
            _ => Err(UnknownKind(n)),
        }
    }
}

impl NodeKind {
    /// How many numbers follow the node's word.
    pub(crate) fn number_count(self) -> usize
        ensures { result ≡ number_count self }
    {
        match self {
            NodeKind::Ball => 4,
            NodeKind::Block => 6,
            NodeKind::Unite | NodeKind::Meet => 0,
            NodeKind::Shift => 3,
            NodeKind::Thicken => 1,
        }
    }

    /// How many standing nodes it takes.
    pub(crate) fn nodes_taken(self) -> usize
        ensures { result ≡ nodes_taken self }
    {
        match self {
            NodeKind::Ball | NodeKind::Block => 0,
            NodeKind::Unite | NodeKind::Meet => 2,
            NodeKind::Shift | NodeKind::Thicken => 1,
        }
    }
}
