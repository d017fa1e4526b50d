ghost use Rattle.std.specs.Prelude.{◌≡◌, IfOk};
ghost use Rattle.sv_core_cases.specs.NestedTypes.{nested_types};

use anyhow::Error;
use sqlite_items::Items;
use std::alloc::Global;
use sv_text::NoMemory;
use sv_type::{TypeInfo, TypeNo, Types};

/// `bool`, `uint256`, `uint256[]`, a struct of a number and such an array, arrays of these two, mappings to the array and to the array of structs,
/// a struct with a mapping, and `uint256[4]`.
fn nested(alloc: Global) -> Result<Types, NoMemory>
    ensures { IfOk result (λ types. types ≡ nested_types) }
{
    let number_and_array = Items::from_slice(alloc, &[TypeNo::at(1), TypeNo::at(2)])?;
    let with_mapping = Items::from_slice(alloc, &[TypeNo::at(6), TypeNo::at(1)])?;
    let list = vec![in alloc;
        TypeInfo::Bool,
        TypeInfo::Uint(256),
        TypeInfo::Dynamic(TypeNo::at(1)),
        TypeInfo::Struct(number_and_array),
        TypeInfo::Dynamic(TypeNo::at(3)),
        TypeInfo::Fixed(TypeNo::at(2), 3),
        TypeInfo::Mapping(TypeNo::at(0), TypeNo::at(2)),
        TypeInfo::Mapping(TypeNo::at(1), TypeNo::at(4)),
        TypeInfo::Struct(with_mapping),
        TypeInfo::Fixed(TypeNo::at(1), 4),
    ]?;
    Ok(Types::of(list))
}

/// Prints for each type whether it is flat, and by an `x` each type that it contains.
pub fn print_types(rt: &HostRuntime) -> Result<(), Error> {
    let types = nested(rt.alloc())?;
    for t in 0..types.len() {
        let mut line = String::new(rt.alloc());
        for part in 0..types.len() {
            let inside = types.contains(TypeNo::at(t as u32), TypeNo::at(part as u32));
            line.push(if inside { 'x' } else { '.' })?;
        }
        println!(rt; "{line} {}", types.is_flat(TypeNo::at(t as u32)))?;
    }
    Ok(())
}
