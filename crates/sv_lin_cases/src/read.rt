use sqlite_items::Items;
use std::alloc::Global;
use sv_cert::Row;
use sv_text::NoMemory;

/// The row of a line `row CONSTANT NUMBER COLUMN NUMBER COLUMN ..`.
pub fn row_of(alloc: Global, text: &str) -> Result<Option<Row>, NoMemory> {
    let Some(rest) = text.strip_prefix("row ") else {
        return Ok(None);
    };
    let mut constant = None;
    let mut factor = None;
    let mut parts = Vec::new(alloc);
    for word in rest.split(' ') {
        if constant.is_none() {
            constant = Some(number(word));
        } else if let Some(before) = factor {
            parts.push((before, word.parse::<usize>().unwrap_or(0)))?;
            factor = None;
        } else {
            factor = Some(number(word));
        }
    }
    Ok(Some(Row {
        constant: constant.unwrap_or(0),
        parts: Items::from_vec(parts),
    }))
}

fn number(word: &str) -> i128 {
    word.parse::<i128>().unwrap_or(0)
}
