ghost use Rattle.std.specs.Prelude.{◌≡◌};
ghost use Rattle.sv_term_room.specs.TermRows.{term_node};
ghost use Rattle.sv_term_room.specs.NodeCodes.{mixed, low, code_of};

use crate::shape::Shape;

const FACTOR: usize = 0x9E37_79B9_7F4A_7C15;

pub(crate) fn node_code(shape: Shape, args: &[usize]) -> usize
    ensures { result ≡ code_of (term_node shape args.now) }
{
    let [kind, first, second] = shape.key();
    let mut code = mix(mix(low_bits(kind), low_bits(first)), low_bits(second));
    for &number in args {
        code = mix(code, number);
    }
    code
}

fn mix(code: usize, number: usize) -> usize
    ensures { result ≡ mixed code number }
{
    code.wrapping_mul(FACTOR).wrapping_add(number)
}

fn low_bits(number: u128) -> usize
    ensures { result ≡ low number }
{
    (number % (1 << 64)) as usize
}
