// A pin of a name.
ghost use Rattle.std.specs.Prelude.{◌≡◌, not, ◌==◌, ◌&&◌};
ghost use Rattle.std.specs.BTreeMap.{is_at};
ghost use Rattle.std.specs.List.{list_any};
ghost use Rattle.table_schema.specs.Key.{key_cmp};
ghost use Rattle.ref_counts.specs.Kept.{is_pinned};

use table_schema::Key;

/// A worker's hold on a name, on behalf of a key that may come to use it.
#[derive(Debug, Drop)]
pub struct Pin {
    /// The worker's number.
    pub worker: u32,
    /// The key.
    pub user: Key,
}

/// Whether a pin is for this key.
pub fn is_pinned_for(pins: &[Pin], user: &Key) -> bool
    ensures { result ≡ is_pinned pins.now user.now }
{
    pins.iter().any(|pin| user.cmp(&pin.user).is_eq())
}

/// Whether a pin of another worker is for this key.
pub fn is_pinned_by_others(pins: &[Pin], worker: u32, user: &Key) -> bool
    ensures { result ≡ list_any (λ p. not (p.worker == worker) && is_at (key_cmp user.now) p.user) pins.now }
{
    pins.iter()
        .any(|pin| pin.worker != worker && user.cmp(&pin.user).is_eq())
}
