//! Keys that are marked in a table, one mark for each slot.

ghost use Rattle.std.specs.Prelude.{◌≡◌, true, false, if◌then◌else◌};
ghost use Rattle.std.specs.List.{list_any};
ghost use Rattle.paris_names.specs.declared.keys.Key.{Key as AnyKey};
ghost use Rattle.paris_names.specs.Keys.{has_key, key_eq};
ghost use Rattle.paris_depends.specs.Sweeps.{marked};

use paris_names::Key;

/// Whether one of the keys is marked in a table, which has a mark for each key's slot.
pub fn is_any_marked(changed: &[bool; 128], keys: &[Key]) -> bool
    ensures { result ≡ list_any (marked changed.now) keys.now }
{
    for key in keys {
        if changed[key.slot()] {
            return true;
        }
    }
    false
}

/// Marks a key, or takes its mark off.
fn mark_one(changed: &mut [bool; 128], key: &Key, hit: bool)
    ensures { (k : AnyKey) → marked changed.new k ≡ (if key_eq k key.now then hit else marked changed.old k) }
{
    changed[key.slot()] = hit;
}

/// Marks keys in a table, or takes their marks off.
pub fn mark(changed: &mut [bool; 128], keys: &[Key], hit: bool)
    ensures { (k : AnyKey) → marked changed.new k ≡ (if has_key keys.now k then hit else marked changed.old k) }
{
    for key in keys {
        mark_one(changed, key, hit);
    }
}

/// Whether no key is marked in a table.
pub fn is_none_marked(changed: &[bool; 128]) -> bool
    ensures { result ≡ true → (k : AnyKey) → marked changed.now k ≡ false }
{
    for slot in 0..128 {
        if changed[slot] {
            return false;
        }
    }
    true
}
