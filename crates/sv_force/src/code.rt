ghost use Rattle.std.specs.Prelude.{◌≡◌};
ghost use Rattle.sv_log.specs.LogRows.{row};
ghost use Rattle.sv_row.specs.RowParts.{monomials};
ghost use Rattle.sv_force.specs.InForce.{FactOn, RowOf};
ghost use Rattle.sv_force.specs.Codes.{mixed, low, code_of};

const FACTOR: usize = 0x9E37_79B9_7F4A_7C15;

pub(crate) fn fact_code(sign: bool, term: usize) -> usize
    ensures { result ≡ code_of (FactOn sign term) }
{
    mix(sign as usize, term)
}

pub(crate) fn row_code(constant: i128, parts: &[(i128, usize)]) -> usize
    ensures { result ≡ code_of (RowOf (row constant (monomials parts.now))) }
{
    let mut code = low_bits(constant);
    for &(k, x) in parts {
        code = mix(mix(code, low_bits(k)), x);
    }
    code
}

fn mix(code: usize, number: usize) -> usize
    ensures { result ≡ mixed code number }
{
    code.wrapping_mul(FACTOR).wrapping_add(number)
}

fn low_bits(number: i128) -> usize
    ensures { result ≡ low number }
{
    (number.unsigned_abs() % (1 << 64)) as usize
}
