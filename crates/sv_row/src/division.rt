ghost use Rattle.std.specs.Prelude.{◌≡◌, pos, ◌<ℤ◌, unsigned_abs, IfOk};
ghost use Rattle.sv_log.specs.LogRows.{times_parts};
ghost use Rattle.sv_row.specs.RowParts.{monomials, Divides, IsGreatestDivisor};

use std::alloc::Global;
use sv_num::gcd;
use sv_text::NoMemory;

/// The greatest number that divides each number of the parts; 0 where there are none.
pub fn divisor(parts: &[(i128, usize)]) -> u128
    ensures { IsGreatestDivisor (monomials parts.now) result }
{
    let mut divisor = 0;
    for &(k, _column) in parts {
        divisor = gcd(divisor, k.unsigned_abs());
    }
    divisor
}

/// The parts with each number divided by `divisor`, which divides them.
pub fn divided(
    alloc: Global,
    divisor: i128,
    parts: &[(i128, usize)],
) -> Result<Vec<(i128, usize)>, NoMemory>
    requires positive { pos 0 <ℤ divisor }
    requires divides { Divides (unsigned_abs divisor) (monomials parts.now) }
    ensures { IfOk result
        (λ quotient. monomials parts.now ≡ times_parts divisor (monomials quotient.items)) }
{
    let mut quotient = Vec::new(alloc);
    for &(k, x) in parts {
        quotient.push((k.div_euclid(divisor), x))?;
    }
    Ok(quotient)
}
