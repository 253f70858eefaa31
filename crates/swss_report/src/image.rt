// The image of the rows, as the report prints it.
ghost use Rattle.std.specs.Prelude.{◌≡◌, ◌++◌, OnOk};
ghost use Rattle.swss_report.specs.Image.{shown_image};

use row_store::Rows;
use std::alloc::Global;
use swss_image::save;
use swss_types::OutOfMemory;

/// Appends the image of rows and the end of the line. An Err may leave a part of it.
pub(crate) fn write_image(alloc: Global, out: &mut Vec<u8>, rows: &Rows) -> Result<(), OutOfMemory>
    ensures { OnOk result (out.new.items ≡ out.old.items ++ shown_image rows.now) }
{
    let image = save(alloc, rows)?;
    out.extend_from_slice(image.as_slice())?;
    out.push(b'\n')?;
    Ok(())
}
