//! Rows are put behind others.
ghost use Rattle.std.specs.Prelude.{◌≡◌, ◌++◌, ◌∷◌, [], OnOk};

use address::OutOfMemory;
use log_model::{Out, RowKind};

/// A row is put behind others.
fn put_behind(out: &mut Out, row: &RowKind) -> Result<(), OutOfMemory>
    ensures { OnOk result (out.new ≡ out.old ++ row.now ∷ []) }
{
    let row = row.copy()?;
    out.push(row)?;
    Ok(())
}

/// More rows are put behind others, in their order.
pub(crate) fn put_all(out: &mut Out, more: &Out) -> Result<(), OutOfMemory>
    ensures { OnOk result (out.new ≡ out.old ++ more.now) }
{
    for row in more.as_slice() {
        put_behind(out, row)?;
    }
    Ok(())
}
