// Chips whose case has ended.
use sai_chip::SimChip;

/// Puts a chip away. Who holds a chip calls it at the one place where the chip goes, so that its destructor, which is long, is
/// proved here alone.
pub fn put_away(chip: SimChip) {
    drop(chip);
}
