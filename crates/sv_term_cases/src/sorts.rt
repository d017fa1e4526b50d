use std::alloc::Global;
use sv_term::{Bank, Range, SortNode};
use sv_text::NoMemory;

/// A bank with no terms and seven sorts: numbers, arrays of numbers, numbers from 0 on, arrays of those, truth values, arrays of those,
/// and pairs of a number from 0 on and a truth value.
pub fn with_sorts(alloc: Global) -> Result<Bank, NoMemory> {
    let mut bank = Bank::new(alloc);
    let any = bank.sort(SortNode::Num(Range::Any))?;
    bank.sort(SortNode::Arr(any))?;
    let low = bank.sort(SortNode::Num(Range::Low))?;
    bank.sort(SortNode::Arr(low))?;
    let truth = bank.sort(SortNode::Bool)?;
    bank.sort(SortNode::Arr(truth))?;
    bank.sort(SortNode::Tup(Vec::from_slice(alloc, &[low, truth])?))?;
    Ok(bank)
}
