// The rows of an image, which are taken before the first round.
ghost use Rattle.std.specs.Prelude.{◌≡◌, [], ◌∷◌, IfOk};
ghost use Rattle.table_schema.specs.ProperKey.{IsReadKey};
ghost use Rattle.table_schema.specs.declared.write.Write.TheVariants as write;
ghost use Rattle.swss_script.specs.Behind.{image_sent};
ghost use Rattle.swss_script.specs.Stage.{AreImageRows};
ghost use Rattle.swss_service.specs.Ahead.{TakesAhead};

use crate::locked::Locked;
use round_actors::Kept;
use row_store::Rows;
use sai_types::Chip;
use swss_types::OutOfMemory;
use table_schema::{Fields, Key, Sent, Write};

/// Takes the rows of an image before the first round, in key order and without a settling: the sender 0, which is no producer,
/// writes them, numbered from 0. Tells what refused the next of them.
pub fn take_image<C: Chip>(locked: &mut Locked<C>, image: &Rows) -> Kept
    requires rows { AreImageRows image.now }
    ensures { TakesAhead (image_sent image.now) locked.old result locked.new }
{
    locked.stand_for_one_session();
    let mut number = 0u64;
    for (key, fields) in image.iter() {
        match take_row(locked, number, key, fields) {
            Kept::Nothing => {}
            kept => return kept,
        }
        // No memory holds so many rows that the count ends.
        let Some(next) = number.checked_add(1) else {
            return Kept::NoMemory;
        };
        number = next;
    }
    Kept::Nothing
}

/// Takes one of them, with its number.
fn take_row<C: Chip>(locked: &mut Locked<C>, number: u64, key: &Key, fields: &Fields) -> Kept
    requires read { IsReadKey key.now }
    ensures { TakesAhead (record { from = 0; number = number; write = write.Set key.now fields.now } ∷ []) locked.old result locked.new }
{
    locked.stand_for_one_session();
    let Ok(write) = written(key, fields) else {
        return Kept::NoMemory;
    };
    match locked.take(Sent {
        from: 0,
        number,
        write,
    }) {
        Ok(()) => Kept::Nothing,
        Err(refusal) => refusal.kept(),
    }
}

/// A row as a write.
fn written(key: &Key, fields: &Fields) -> Result<Write, OutOfMemory>
    ensures { IfOk result (λ w. w ≡ write.Set key.now fields.now) }
{
    Ok(Write::Set(key.copy()?, fields.copy()?))
}
