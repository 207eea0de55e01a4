//! The kinds of executables.

ghost use Rattle.std.specs.Prelude.{◌≡◌};
ghost use Rattle.exec_tree.specs.Said.{kind_of_node};

use nc_base::Number;
use nc_expr::{Cond, Expr};

/// The kind of an executable (ISO 14649-10, executables). Every note, as `DISPLAY_MESSAGE` or `LOAD_TOOL`, is of one kind.
#[derive(Clone, Copy, Debug, PartialEq, Eq)]
pub enum Kind {
    Plan,
    Par,
    NonSeq,
    Sel,
    If,
    While,
    Work,
    Assign,
    Set,
    Wait,
    Note,
}

/// A node's kind with what it says: the condition of an if or a while, the variable and the value of an assignment, the mark that a
/// wait waits for.
#[derive(Drop)]
pub enum NodeKind {
    Plan,
    Par,
    NonSeq,
    Sel,
    If(Cond),
    While(Cond),
    Work,
    Assign(Number, Expr),
    Set,
    Wait(Number),
    Note,
}

impl NodeKind {
    /// The kind alone.
    pub fn kind(&self) -> Kind
        ensures { result ≡ kind_of_node self.now }
    {
        match self {
            NodeKind::Plan => Kind::Plan,
            NodeKind::Par => Kind::Par,
            NodeKind::NonSeq => Kind::NonSeq,
            NodeKind::Sel => Kind::Sel,
            NodeKind::If(_) => Kind::If,
            NodeKind::While(_) => Kind::While,
            NodeKind::Work => Kind::Work,
            NodeKind::Assign(_, _) => Kind::Assign,
            NodeKind::Set => Kind::Set,
            NodeKind::Wait(_) => Kind::Wait,
            NodeKind::Note => Kind::Note,
        }
    }
}
