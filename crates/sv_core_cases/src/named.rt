ghost use Rattle.std.specs.Prelude.{IsTrue, ◌<◌, length};
ghost use Rattle.sv_core.specs.LabelTexts.{HasNames, HasFunctionNames, HasOwnerName};
ghost use Rattle.sv_core.specs.PlainCore.{plain_core, plain_func};

use sv_core::{Core, FuncId, FuncInfo};
use sv_text::Names;

/// Whether the names with which a function's line is written are in the list.
pub fn is_named(core: &Core, names: &Names, f: FuncId) -> bool
    ensures { IsTrue result → HasNames names.now (plain_core core.now) f }
{
    if core.name.position() as usize >= names.len() {
        return false;
    }
    match f {
        FuncId::Constructor => true,
        FuncId::Function(k) => is_function_named(core, names, k),
        FuncId::Gift => true,
    }
}

fn is_function_named(core: &Core, names: &Names, k: u32) -> bool
    ensures { IsTrue result → HasFunctionNames names.now (plain_core core.now) k }
{
    let Some(f) = core.funcs.get(k as usize) else {
        return false;
    };
    if f.name.position() as usize >= names.len() {
        return false;
    }
    is_owner_named(core, names, f)
}

fn is_owner_named(core: &Core, names: &Names, f: &FuncInfo) -> bool
    ensures { IsTrue result → HasOwnerName names.now (plain_core core.now) (plain_func f.now) }
{
    match core.owners.get(f.owner as usize) {
        Some(owner) => (owner.position() as usize) < names.len(),
        None => false,
    }
}
