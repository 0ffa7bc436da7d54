//! Compares the hit rates of a cache with admission and without.
ghost use Rattle.std.specs.Prelude.{◌<◌, IfOk};

use crate::admission::Admission;
use anyhow::{Result, bail, ensure};
use lru::LruCache;
use std::alloc::{AllocError, Global};
use std::fmt::Write;
use std::num::NonZeroUsize;

/// Two caches of one size that drop the least recently used item first. One takes each used item, the other only admitted
/// ones.
#[derive(Drop)]
struct Trial {
    admission: Admission,
    choosy: LruCache<u64, ()>,
    plain: LruCache<u64, ()>,
    uses: u64,
    choosy_hits: u64,
    plain_hits: u64,
}

/// Uses the items of the lines, and prints the hit rate of each cache.
pub fn run(alloc: Global, numbers: &[u64], text: &str, report: &mut String) -> Result<()> {
    let mut trial = trial_of(alloc, numbers)?;
    trial.touch_each(text, report)
}

/// Parses hashes, buckets, window and cache size, and creates the caches.
fn trial_of(alloc: Global, numbers: &[u64]) -> Result<Trial> {
    let [hashes, buckets, window, capacity] = numbers else {
        bail!("admission HASHES BUCKETS WINDOW CAPACITY");
    };
    let window = window_of(*window)?;
    let Some(capacity) = NonZeroUsize::new(usize::try_from(*capacity)?) else {
        bail!("an empty cache");
    };
    let hashes = u8::try_from(*hashes)?;
    let buckets = u32::try_from(*buckets)?;
    let admission = Admission::new(alloc, hashes, buckets, window)?;
    Trial::new(alloc, admission, capacity)
}

/// Returns the length of a window, a number of uses.
fn window_of(uses: u64) -> Result<u32>
    ensures { IfOk result (λ window. 0 < window) }
{
    let window = u32::try_from(uses)?;
    ensure!(window > 0, "an empty window");
    Ok(window)
}

impl Trial {
    /// Creates empty caches of this size.
    fn new(alloc: Global, admission: Admission, capacity: NonZeroUsize) -> Result<Self> {
        let choosy = LruCache::sparse(alloc, capacity)?;
        let plain = LruCache::sparse(alloc, capacity)?;
        Ok(Trial {
            admission,
            choosy,
            plain,
            uses: 0,
            choosy_hits: 0,
            plain_hits: 0,
        })
    }

    /// Uses the item of each line, and prints the hit rates.
    fn touch_each(&mut self, text: &str, report: &mut String) -> Result<()> {
        for line in text.lines() {
            self.touch(line.trim().parse::<u64>()?)?;
        }
        let uses = self.uses;
        let hits = self.choosy_hits;
        let plain_hits = self.plain_hits;
        writeln!(report, "uses {uses} hits {hits} without {plain_hits}")?;
        Ok(())
    }

    /// Uses an item in both caches.
    fn touch(&mut self, item: u64) -> Result<(), AllocError> {
        self.uses = self.uses.saturating_add(1);
        self.admission.touch(item);
        if self.plain.promote(&item) {
            self.plain_hits = self.plain_hits.saturating_add(1);
        } else {
            self.plain.put(item, ())?;
        }
        if self.choosy.promote(&item) {
            self.choosy_hits = self.choosy_hits.saturating_add(1);
        } else if self.may_enter(item) {
            self.choosy.put(item, ())?;
        }
        Ok(())
    }

    /// Returns whether an item that is not in the cache with admission enters it.
    fn may_enter(&self, item: u64) -> bool {
        if self.choosy.len() < self.choosy.cap().get() {
            return true;
        }
        match self.choosy.peek_lru() {
            Some((victim, _)) => self.admission.admits(item, *victim),
            None => true,
        }
    }
}
