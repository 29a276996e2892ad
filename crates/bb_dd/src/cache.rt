//! The cache of results, least recently used entry out first. It reserves no room at the start, and an insertion that
//! finds no memory is dropped. Look-ups of `apply` and of the conditional do not reorder entries, since that would
//! write on each hit; those of quantification do. A standard form of calls (operands in order, conditionals turned into
//! cheaper ones) was measured and brought nothing, so calls are cached as they come.

ghost use Rattle.std.specs.Prelude.{◌≡◌, ◌≤◌, ◌⊎◌, length, OnOk, OnErr};
ghost use Rattle.std.specs.Map.{lookup};
ghost use Rattle.lru.specs.LruCache.{lru_cache, promoted, put_entries};

use crate::key::Key;
use bb_bits::NoMemory;
use bb_uniq::Ref;
use lru::LruCache;

/// Does not count as a use, so a look-up writes nothing.
pub fn peek(cache: &LruCache<Key, Ref>, key: &Key) -> Option<Ref>
    ensures { result ≡ lookup (⟦<Key as PartialEq>⟧.eq key.now) cache.now.entries }
{
    cache.peek(key).copied()
}

pub fn look_up(cache: &mut LruCache<Key, Ref>, key: &Key) -> Option<Ref>
    ensures found { result ≡ lookup (⟦<Key as PartialEq>⟧.eq key.now) cache.old.entries }
    ensures entries { cache.new
        ≡ lru_cache (promoted (⟦<Key as PartialEq>⟧.eq key.now) cache.old.entries) cache.old.cap }
{
    cache.get(key).copied()
}

/// Without memory the cache stays as it is: a lost result costs time only.
pub fn remember(cache: &mut LruCache<Key, Ref>, key: Key, r: Ref)
    ensures entries { (cache.new ≡ cache.old)
        ⊎ (cache.new ≡ lru_cache (put_entries ⟦<Key as PartialEq>⟧.eq cache.old key r) cache.old.cap) }
    ensures no_fewer { length cache.old.entries ≤ length cache.new.entries }
{
    // Proves that the cache has no more entries than its capacity.
    let _ = cache.len();
    let _ = cache.put(key, r);
}

pub fn put(cache: &mut LruCache<Key, Ref>, key: Key, r: Ref) -> Result<(), NoMemory>
    ensures ok { OnOk result (cache.new
        ≡ lru_cache (put_entries ⟦<Key as PartialEq>⟧.eq cache.old key r) cache.old.cap) }
    ensures err { OnErr result (cache.new ≡ cache.old) }
{
    cache.put(key, r)?;
    Ok(())
}
