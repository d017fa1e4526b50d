use anyhow::Error;
use sv_parse_expr::ParseFault;
use sv_text::Place;

/// Prints how many tokens were read, or the fault.
pub fn print_behind<X: Drop>(
    rt: &HostRuntime,
    read: Result<(X, usize), ParseFault>,
) -> Result<(), Error> {
    match read {
        Ok((_, behind)) => println!(rt; "{behind}")?,
        Err(ParseFault::Syntax(place)) => print_fault(rt, place)?,
        Err(ParseFault::NoMemory) => println!(rt; "out of memory")?,
    }
    Ok(())
}

pub fn print_fault(rt: &HostRuntime, place: Place) -> Result<(), Error> {
    println!(rt; "fault {}:{}", place.line, place.col)?;
    Ok(())
}
