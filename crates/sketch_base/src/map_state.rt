//! The hash builder and its hashers.
ghost use Rattle.std.specs.Prelude.{◌≡◌};
ghost use Rattle.sketch_base.specs.MapHashers as spec;

use std::hash::{
    BuildHasher, BuildHasherDefault, DefaultHasher, FoldHasher, Hash, Hasher, RandomState,
};

/// A hash builder: std's default one with its fixed seed, or a `RandomState`.
///
/// # Examples
///
/// ```
/// use sketch_base::MapState;
/// use std::alloc::Global;
/// use std::collections::HashMap;
/// use std::hash::RandomState;
///
/// fn ages(alloc: Global, state: RandomState) -> HashMap<String, u8, MapState> {
///     HashMap::with_hasher(alloc, MapState::Random(state))
/// }
/// ```
#[derive(Clone, Copy)]
pub enum MapState {
    /// The hasher that std's maps have by default. Anyone can choose keys that collide.
    Fixed(BuildHasherDefault<FoldHasher>),
    /// SipHash-1-3 under random keys. Without the keys, no way is known to choose keys that collide.
    Random(RandomState),
}

/// A hasher of a [`MapState`].
#[derive(Clone, Copy)]
pub enum MapHasher {
    Fold(FoldHasher),
    Sip(DefaultHasher),
}

impl MapState {
    /// Creates the hash builder that std's maps have by default.
    pub fn fixed() -> Self {
        MapState::Fixed(BuildHasherDefault::new())
    }
}

impl BuildHasher for MapState {
    type Hasher = MapHasher;

    ghost build_hasher = { spec.initial_hasher };

    #[inline(always)]
    fn build_hasher(&self) -> MapHasher {
        match self {
            MapState::Fixed(state) => MapHasher::Fold(state.build_hasher()),
            MapState::Random(state) => MapHasher::Sip(state.build_hasher()),
        }
    }

    // one test of the variant for all writes of a key
    #[inline(always)]
    fn hash_one<T: Hash + Drop>(&self, x: T) -> u64 {
        match self {
            MapState::Fixed(state) => state.hash_one(x),
            MapState::Random(state) => state.hash_one(x),
        }
    }
}

impl Hasher for MapHasher {
    ghost write = { spec.write };

    ghost finish = { spec.finish };

    #[inline(always)]
    fn finish(&self) -> u64 {
        match self {
            MapHasher::Fold(hasher) => hasher.finish(),
            MapHasher::Sip(hasher) => hasher.finish(),
        }
    }

    #[inline(always)]
    fn write(&mut self, bytes: &[u8]) {
        match self {
            MapHasher::Fold(hasher) => hasher.write(bytes),
            MapHasher::Sip(hasher) => hasher.write(bytes),
        }
    }
}
