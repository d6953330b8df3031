//! The rows of the table, for programs.
ghost use Rattle.std.specs.Prelude.{◌≡◌, IfOk};
ghost use Rattle.routes.specs.Rows.{row_of, rows_of};

use std::alloc::{AllocError, Global};
use words::{Route, TableRow};

/// The rows of a table as programs see them, one for each route, in their order: the prefix and the
/// route's `cost`, which of a type 2 external route is the type 2 metric alone.
///
/// # Errors
/// `AllocError` if an allocation is refused.
pub fn rows_of(alloc: Global, table: &[Route]) -> Result<Vec<TableRow>, AllocError>
    ensures { IfOk result (λ rows. rows.items ≡ rows_of table.now) }
{
    table.iter().map(row_of).collect(alloc)
}

fn row_of(route: &Route) -> TableRow
    ensures { result ≡ row_of route.now }
{
    TableRow {
        prefix: route.prefix,
        cost: route.cost,
    }
}
