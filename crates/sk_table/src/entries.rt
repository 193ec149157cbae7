//! Entries by their keys, in lists.

ghost use Rattle.std.specs.Prelude.{◌≡◌, ◌≤◌, ◌<◌, true, length, slice_get, OnOk};
ghost use Rattle.std.specs.Option.{option_copied};
ghost use Rattle.std.specs.FinMap.{find, put};
ghost use Rattle.sk_table.specs.Entries.{count_below, is_tied};

use sk_rows::NoMemory;

/// The value at the first entry with this key.
pub(crate) fn find<'a, K: Ord, X>(entries: &'a [(K, X)], key: &K) -> Option<&'a X>
    ensures { option_copied result ≡ find K.cmp key.now entries.now }
{
    for entry in entries {
        if key.cmp(&entry.0).is_eq() {
            return Some(&entry.1);
        }
    }
    None
}

/// How many entries from the front on have lesser keys.
fn count_below<K: Ord, X>(entries: &[(K, X)], key: &K) -> usize
    ensures count { result ≡ count_below K.cmp key.now entries.now }
    ensures within { result ≤ length entries.now }
{
    let mut count = 0;
    for entry in entries {
        if !key.cmp(&entry.0).is_gt() {
            return count;
        }
        count += 1;
    }
    count
}

/// Whether the entry at this place has this key.
fn is_tied<K: Ord, X>(entries: &[(K, X)], at: usize, key: &K) -> bool
    ensures tied { result ≡ is_tied K.cmp key.now (slice_get entries.now at) }
    ensures within { result ≡ true → at < length entries.now }
{
    match entries.get(at) {
        Some(entry) => key.cmp(&entry.0).is_eq(),
        None => false,
    }
}

/// Puts a value at a key: in place of the one there, or before the first entry with a greater key. Where memory is wanted, no more is said of the entries.
#[tactic(auto, using(crate::proofs::Placing::tied, crate::proofs::Placing::apart))]
pub(crate) fn put<K: Ord + Drop, X: Drop>(
    entries: &mut Vec<(K, X)>,
    key: K,
    value: X,
) -> Result<(), NoMemory>
    ensures { OnOk result (entries.new.items ≡ put K.cmp key value entries.old.items) }
{
    let at = count_below(entries.as_slice(), &key);
    if is_tied(entries.as_slice(), at, &key) {
        let (old, _) = entries.remove(at);
        entries.insert(at, (old, value))?;
        Ok(())
    } else {
        entries.insert(at, (key, value))?;
        Ok(())
    }
}
