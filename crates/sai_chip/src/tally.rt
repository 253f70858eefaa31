// How often each key of a map is counted.
ghost use Rattle.std.specs.Prelude.{◌≡◌, ◌+◌, ◌-◌, OnOk, OnErr, if◌then◌else◌};
ghost use Rattle.std.specs.BTreeMap.{is_at};
ghost use Rattle.sai_chip.specs.Tally.{count_in};

use late_maps::LateMap;
use swss_types::OutOfMemory;

/// How often the key is counted.
pub fn count<K: Ord + Copy>(counts: &LateMap<K, u64>, key: &K) -> u64
    ensures { result ≡ count_in K.cmp counts.now key.now }
{
    counts.get(key).copied().unwrap_or(0)
}

/// Counts a key once more. Want of memory comes too where the count has no next number.
pub fn raise<K: Ord + Copy + Drop>(counts: &mut LateMap<K, u64>, key: K) -> Result<(), OutOfMemory>
    ensures ok { OnOk result ((k : K) → count_in K.cmp counts.new k ≡ count_in K.cmp counts.old k + (if is_at (K.cmp key) k then 1 else 0)) }
    ensures err { OnErr result (counts.new ≡ counts.old) }
{
    let Some(count) = counts.get_mut(&key) else {
        counts.insert(key, 1)?;
        return Ok(());
    };
    let Some(more) = count.checked_add(1) else {
        return Err(OutOfMemory);
    };
    *count = more;
    Ok(())
}

/// Counts a key once less, where it is counted.
pub fn lower<K: Ord + Copy + Drop>(counts: &mut LateMap<K, u64>, key: K)
    ensures { (k : K) → count_in K.cmp counts.new k ≡ count_in K.cmp counts.old k - (if is_at (K.cmp key) k then 1 else 0) }
{
    if let Some(count) = counts.get_mut(&key)
        && 2 <= *count
    {
        *count -= 1;
    } else {
        counts.remove(&key);
    }
}
