// The rounds of a script that begins with an image.
ghost use Rattle.std.specs.Prelude.{◌≡◌, IfOk, map};
ghost use Rattle.swss_script.specs.Behind.{image_section, row_act, rounds_behind};

use crate::{Act, Acts, RoundList, Section};
use row_store::Rows;
use std::alloc::Global;
use swss_types::OutOfMemory;
use table_schema::Write;

/// The rounds behind an image: where it has rows, the first round begins with a section in which they are written in key order, by
/// the sender 0, which is no producer.
pub fn rounds_behind(
    alloc: Global,
    image: &Rows,
    rounds: RoundList,
) -> Result<RoundList, OutOfMemory>
    ensures { IfOk result (λ behind. behind ≡ rounds_behind image.now rounds) }
{
    let mut rounds = rounds;
    if image.len() > 0 {
        rounds.open_with(image_section(alloc, image)?)?;
    }
    Ok(rounds)
}

/// The section in which the rows of an image are written.
fn image_section(alloc: Global, image: &Rows) -> Result<Section, OutOfMemory>
    ensures { IfOk result (λ section. section ≡ image_section image.now) }
{
    Ok(Section {
        producer: 0,
        acts: row_acts(alloc, image)?,
    })
}

/// The rows of an image as writes.
fn row_acts(alloc: Global, image: &Rows) -> Result<Acts, OutOfMemory>
    ensures { IfOk result (λ acts. acts ≡ map row_act image.now) }
{
    let mut acts = Acts::new(alloc);
    for (key, fields) in image.iter() {
        acts.push(Act::Write(Write::Set(key.copy()?, fields.copy()?)))?;
    }
    acts.shrink();
    Ok(acts)
}
