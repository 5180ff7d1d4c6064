//! Tables of what is given and of the expected results.
use std::alloc::{AllocError, Global};

/// The first row of a table whose result isn't what follows ` => `, with that result.
pub fn wrong_row<F: Fn(Global, &str) -> Result<String, AllocError>>(
    alloc: Global,
    table: &str,
    tell: &F,
) -> Result<Option<String>, AllocError>
    requires { F.IsAlwaysCallable tell.now }
{
    for row in table.lines() {
        let (given, expected) = row.split_once(" => ").unwrap_or((row, "no row"));
        let told = tell(alloc, given)?;
        if told.as_str() != expected {
            return Ok(Some(format!(in alloc; "{row}, but told is: {told}")?));
        }
    }
    Ok(None)
}
