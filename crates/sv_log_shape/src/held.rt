ghost use Rattle.std.specs.Prelude.{MatchOption};
ghost use Rattle.sv_cert.specs.PlainNodes.{plain_kind};
ghost use Rattle.sv_log_shape.specs.LoggedShapes.{CantHold, IsHeld};

use sv_cert::NodeKind;
use sv_term_room::Shape;

/// The shape of that kind with these parts; `None` where the number is none that the shape may have.
pub(crate) fn held(kind: NodeKind, flag: bool, number: u128, sort: usize) -> Option<Shape>
    ensures { MatchOption result (CantHold (plain_kind kind) number)
        (IsHeld (plain_kind kind) flag number sort) }
{
    match kind {
        NodeKind::Lit => Some(Shape::Lit(flag, number)),
        NodeKind::Truth => Some(Shape::Truth(flag)),
        NodeKind::Var => match usize::try_from(number) {
            Ok(x) => Some(Shape::Var(x, sort)),
            Err(_) => None,
        },
        NodeKind::Add => Some(Shape::Add),
        NodeKind::Sub => Some(Shape::Sub),
        NodeKind::Mul => Some(Shape::Mul),
        NodeKind::Div => Some(Shape::Div),
        NodeKind::Mod => Some(Shape::Mod),
        NodeKind::Wrap => {
            if 1 <= number && number <= 120 {
                Some(Shape::Wrap(flag, number as u16))
            } else {
                None
            }
        }
        NodeKind::Le => Some(Shape::Le),
        NodeKind::Eq => Some(Shape::Eq),
        NodeKind::Not => Some(Shape::Not),
        NodeKind::And => Some(Shape::And),
        NodeKind::Or => Some(Shape::Or),
        NodeKind::Ite => Some(Shape::Ite),
        NodeKind::Sel => Some(Shape::Sel),
        NodeKind::Sto => Some(Shape::Sto),
        NodeKind::Const => Some(Shape::Const(sort)),
        NodeKind::Mix => Some(Shape::Mix),
        NodeKind::Tup => Some(Shape::Tup(sort)),
        NodeKind::Get => match usize::try_from(number) {
            Ok(k) => Some(Shape::Get(k)),
            Err(_) => None,
        },
        NodeKind::Sum => Some(Shape::Sum),
    }
}
