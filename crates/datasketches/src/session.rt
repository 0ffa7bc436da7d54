//! Sessions: named sketches and images.
ghost use Rattle.std.specs.Prelude.{◌≡◌, false, [], None, Some, IfOk, IfErr, OnErr, IsTrue};
ghost use Rattle.counter_table.specs.declared.table_key.TableKey.TheVariants.{Plain};
ghost use Rattle.datasketches.specs.Actions.{Action, Change, Join, Shape, usual_sizes};
ghost use Rattle.datasketches.specs.SessionStandsFor.{SessionStandsFor};
ghost use Rattle.datasketches.specs.Histories.{nothing_named};
ghost use Rattle.datasketches.specs.Names.{at_name};
ghost use Rattle.datasketches.specs.Keyed.{PerformedByKey};
ghost use Rattle.datasketches.specs.Performed.{Performed};
ghost use Rattle.datasketches.specs.Replies.{done_or, told, told_as, is_refused, bounds_in, contains_in};
ghost use Rattle.datasketches.specs.State.{SessionState, keys_with, nothing_stored};

mod running;

use crate::image::Image;
use crate::image_kind::ImageKind;
use crate::joining::{Difference, Intersect, Joining, Merge, Union};
use crate::name_map::NameMap;
use crate::new_sketch::{NewSketch, SignedCounts, UnsignedCounts};
use crate::of_items::OfItems;
use crate::reply::{Bounds, Refusal, Reply, Status};
use crate::sketch::Sketch;
use sketch_base::MapState;
use sketch_bloom::BloomFilterBuilder;
use sketch_countmin::{CountMinSizes, RowItem};
use sketch_frequencies::{
    EqualClone, ErrorType, FrequentItemValue, FrequentItemsSizes, ItemKey, OwnedKey, Row, TableKey,
};
use std::alloc::Global;
use std::fmt;
use std::hash::{Hash, RandomState};
use std::marker::Model;

/// Sketches of four kinds and saved images of them, each under its own name.
///
/// Calls and commands preserve an invariant, whatever histories the names had before: each sketch stands for the history
/// of its accepted commands.
///
/// # Examples
///
/// ```
/// use datasketches::{Bounds, Refusal, Session};
/// use std::alloc::Global;
///
/// fn visits_by_seven(alloc: Global) -> Result<Bounds, Refusal> {
///     let mut session = Session::new(alloc);
///     session.create_frequent_items("visits", 64)?;
///     session.add("visits", 7_u64, 5)?;
///     session.bounds("visits", &7)
/// }
/// ```
#[derive(Drop)]
pub struct Session<T: Eq + Hash + Drop> {
    alloc: Global,
    key: TableKey,
    sketches: NameMap<Sketch<T>>,
    images: NameMap<Image>,
}

impl<T: Eq + Hash + Drop> Model for Session<T> {
    ghost use Rattle.datasketches.specs.State.{SessionState};

    ghost Value = { SessionState T };

    ghost use Rattle.std.specs.Coded.{codes};
    ghost use Rattle.sketch_bloom.specs.State.{state_code};

    ghost coded = { Prim.hlevel (codes, state_code) };

    ghost view = { λ s. record {
      sketches = s.sketches.entries;
      images = s.images.entries;
      keys = record { table = s.key; sketch_names = s.sketches.hasher; image_names = s.images.hasher };
    } };
}

/// Prints the names.
impl<T: Eq + Hash + Drop> fmt::Debug for Session<T> {
    fn fmt<W: fmt::Write>(&self, f: &mut fmt::Formatter<W>) -> fmt::Result {
        f.debug_struct("Session")
            .field("sketches", &self.sketches)
            .field("images", &self.images)
            .finish_non_exhaustive()
    }
}

impl<T: FrequentItemValue + EqualClone + Drop> Session<T> {
    /// Creates a session with no names. Does not allocate.
    pub fn new(alloc: Global) -> Self
        ensures empty { result ≡ nothing_stored (keys_with Plain result.keys.sketch_names) }
        ensures fits { SessionStandsFor T.eq T.codec T.content result nothing_named }
    {
        Self::with_state(alloc, TableKey::Plain, MapState::fixed())
    }

    /// Creates a session as [`new`](Self::new) does, whose sketches of frequent items hash under `key`.
    ///
    /// The key applies to the sketches that commands create, restore and load. With a secret key, no way is known to
    /// choose items or images that slow them down. This holds for callers who see no images, rows, walks or times of calls of
    /// sketches under the key ([`TableKey`]). Names hash as in a session of `new`. If callers choose the names, use
    /// [`with_key_and_hasher`](Self::with_key_and_hasher).
    ///
    /// # Examples
    ///
    /// ```
    /// use datasketches::Session;
    /// use datasketches::frequencies::{HashKey, TableKey};
    /// use std::alloc::Global;
    ///
    /// fn keyed_session(alloc: Global, random: &[u8; 16]) -> Session<String> {
    ///     Session::with_key(alloc, TableKey::Keyed(HashKey::from_bytes(random)))
    /// }
    /// ```
    pub fn with_key(alloc: Global, key: TableKey) -> Self
        ensures empty { result ≡ nothing_stored (keys_with key result.keys.sketch_names) }
        ensures fits { SessionStandsFor T.eq T.codec T.content result nothing_named }
    {
        Self::with_state(alloc, key, MapState::fixed())
    }

    /// Creates a session as [`with_key`](Self::with_key) does, whose names hash under `hash_builder`.
    ///
    /// With secret keys, no way is known to choose names that slow down the commands for others.
    ///
    /// # Examples
    ///
    /// ```
    /// use datasketches::Session;
    /// use datasketches::frequencies::{HashKey, TableKey};
    /// use std::alloc::Global;
    /// use std::hash::RandomState;
    ///
    /// fn session_of_strangers(
    ///     alloc: Global,
    ///     random: &[u8; 16],
    ///     hash_builder: RandomState,
    /// ) -> Session<String> {
    ///     let key = TableKey::Keyed(HashKey::from_bytes(random));
    ///     Session::with_key_and_hasher(alloc, key, hash_builder)
    /// }
    /// ```
    pub fn with_key_and_hasher(alloc: Global, key: TableKey, hash_builder: RandomState) -> Self
        ensures empty { result ≡ nothing_stored (keys_with key (MapState.Random hash_builder)) }
        ensures fits { SessionStandsFor T.eq T.codec T.content result nothing_named }
    {
        Self::with_state(alloc, key, MapState::Random(hash_builder))
    }

    /// Creates a session with no names and these keys.
    fn with_state(alloc: Global, key: TableKey, state: MapState) -> Self
        ensures empty { result ≡ nothing_stored (keys_with key state) }
        ensures fits { SessionStandsFor T.eq T.codec T.content result nothing_named }
    {
        Session {
            alloc,
            key,
            sketches: NameMap::new(alloc, state),
            images: NameMap::new(alloc, state),
        }
    }

    /// Creates a sketch of the most frequent items under the name, with a table of at most `max_map_size` slots.
    ///
    /// # Errors
    ///
    /// This and the other calls that create a sketch return `NameTaken` if a sketch has the name already. Otherwise they
    /// return the error of the sketch's own constructor, or `NoMemory` if the name cannot be kept. An error of any call
    /// changes nothing.
    pub fn create_frequent_items(&mut self, name: &str, max_map_size: usize) -> Result<(), Refusal>
        ensures { Performed (⟦<Session<T> as OfItems>⟧.items)
            (Action.Create name.now (Shape.Frequent (usual_sizes max_map_size))) self.old (done_or result) self.new }
    {
        self.create(name, FrequentItemsSizes::new(max_map_size))
    }

    /// Creates a sketch as [`create_frequent_items`](Self::create_frequent_items) does, with a sample size.
    pub fn create_frequent_items_with_sizes(
        &mut self,
        name: &str,
        sizes: FrequentItemsSizes,
    ) -> Result<(), Refusal>
        ensures { Performed (⟦<Session<T> as OfItems>⟧.items)
            (Action.Create name.now (Shape.Frequent sizes)) self.old (done_or result) self.new }
    {
        self.create(name, sizes)
    }

    /// Creates a Count-Min sketch of signed weights under the name.
    pub fn create_count_min_i64(&mut self, name: &str, sizes: CountMinSizes) -> Result<(), Refusal>
        ensures { Performed (⟦<Session<T> as OfItems>⟧.items)
            (Action.Create name.now (Shape.CountI64 sizes)) self.old (done_or result) self.new }
    {
        self.create(name, SignedCounts(sizes))
    }

    /// Creates a Count-Min sketch of nonnegative weights under the name.
    pub fn create_count_min_u64(&mut self, name: &str, sizes: CountMinSizes) -> Result<(), Refusal>
        ensures { Performed (⟦<Session<T> as OfItems>⟧.items)
            (Action.Create name.now (Shape.CountU64 sizes)) self.old (done_or result) self.new }
    {
        self.create(name, UnsignedCounts(sizes))
    }

    /// Creates a Bloom filter of the builder's size under the name.
    pub fn create_bloom_filter(
        &mut self,
        name: &str,
        sizes: BloomFilterBuilder,
    ) -> Result<(), Refusal>
        ensures { Performed (⟦<Session<T> as OfItems>⟧.items)
            (Action.Create name.now (Shape.Bloom sizes)) self.old (done_or result) self.new }
    {
        self.create(name, sizes)
    }

    /// Adds an item with a weight to a sketch of frequent items, or to a Count-Min sketch of nonnegative weights.
    ///
    /// # Errors
    ///
    /// Calls on a sketch return `NoSuchName` if no sketch has the name, `WrongKind` if its kind does not support the call,
    /// and the error of the sketch's own call.
    pub fn add(&mut self, name: &str, item: T, weight: u64) -> Result<(), Refusal>
        ensures { Performed (⟦<Session<T> as OfItems>⟧.items)
            (Action.Alter name.now (Change.Add item weight)) self.old (done_or result) self.new }
    {
        let Some(sketch) = self.sketches.get_mut(name) else {
            return Err(Refusal::NoSuchName);
        };
        sketch.add(item, weight)
    }

    /// Adds the item that the key names, as [`add`](Self::add) does. A session of `String`s takes a `&str` as the key.
    ///
    /// Creates an owned item only if a sketch of frequent items tracks none. Then this may also return `NoMemory` for that
    /// item, but not if the weight is 0, and not in place of `WeightOverflow`.
    #[inline(always)]
    pub fn add_by_key<K: OwnedKey<T> + RowItem<u64>>(
        &mut self,
        name: &str,
        item: K,
        weight: u64,
    ) -> Result<(), Refusal>
        ensures { (x : T) → IsTrue (K.names item x)
            → PerformedByKey (⟦<Session<T> as OfItems>⟧.items) name.now (K.names item) weight
            self.old result self.new }
    {
        let Some(sketch) = self.sketches.get_mut(name) else {
            return Err(Refusal::NoSuchName);
        };
        sketch.add_by_key(item, weight)
    }

    /// Adds an item with a weight that may be negative to a Count-Min sketch of signed weights.
    pub fn add_signed<K: ItemKey<T> + RowItem<i64>>(
        &mut self,
        name: &str,
        item: K,
        weight: i64,
    ) -> Result<(), Refusal>
        ensures { (x : T) → IsTrue (K.names item x)
            → Performed (⟦<Session<T> as OfItems>⟧.items)
            (Action.Alter name.now (Change.AddSigned x weight)) self.old (done_or result) self.new }
    {
        let Some(sketch) = self.sketches.get_mut(name) else {
            return Err(Refusal::NoSuchName);
        };
        sketch.add_signed(item, weight)
    }

    /// Inserts an item into a Bloom filter. The key is a reference to the item, or a `&str` if items are `String`s.
    #[inline(always)]
    pub fn insert<K: ItemKey<T>>(&mut self, name: &str, item: K) -> Result<(), Refusal>
        ensures { (x : T) → IsTrue (K.names item x)
            → Performed (⟦<Session<T> as OfItems>⟧.items)
            (Action.Alter name.now (Change.Insert x)) self.old (done_or result) self.new }
    {
        let Some(sketch) = self.sketches.get_mut(name) else {
            return Err(Refusal::NoSuchName);
        };
        sketch.insert(item)
    }

    /// Empties a sketch of frequent items or a filter.
    pub fn reset(&mut self, name: &str) -> Result<(), Refusal>
        ensures { Performed (⟦<Session<T> as OfItems>⟧.items)
            (Action.Alter name.now Change.Reset) self.old (done_or result) self.new }
    {
        let Some(sketch) = self.sketches.get_mut(name) else {
            return Err(Refusal::NoSuchName);
        };
        sketch.reset()
    }

    /// Halves all weights of a Count-Min sketch of nonnegative weights.
    pub fn halve(&mut self, name: &str) -> Result<(), Refusal>
        ensures { Performed (⟦<Session<T> as OfItems>⟧.items)
            (Action.Alter name.now Change.Halve) self.old (done_or result) self.new }
    {
        let Some(sketch) = self.sketches.get_mut(name) else {
            return Err(Refusal::NoSuchName);
        };
        sketch.halve()
    }

    /// Multiplies all weights of a Count-Min sketch of nonnegative weights by a fraction.
    ///
    /// Returns `BadFraction` if the fraction is not above 0 and at most 1.
    pub fn decay(&mut self, name: &str, numerator: u64, denominator: u64) -> Result<(), Refusal>
        ensures { Performed (⟦<Session<T> as OfItems>⟧.items)
            (Action.Alter name.now (Change.Decay numerator denominator)) self.old (done_or result) self.new }
    {
        let Some(sketch) = self.sketches.get_mut(name) else {
            return Err(Refusal::NoSuchName);
        };
        sketch.decay(numerator, denominator)
    }

    /// Adds the weights of the sketch `other` to the sketch `into`. Both are of the same kind, which is not a filter.
    ///
    /// # Errors
    ///
    /// Calls on two sketches return the first of these that applies:
    ///
    /// - `NoSuchName` if a name has no sketch;
    /// - `SameName` if both names are the same;
    /// - `WrongKind` if the kinds differ or do not support the call;
    /// - the error of the sketch's own call.
    pub fn merge(&mut self, into: &str, other: &str) -> Result<(), Refusal>
        ensures { Performed (⟦<Session<T> as OfItems>⟧.items)
            (Action.Combine into.now other.now Join.Merge) self.old (done_or result) self.new }
    {
        self.join::<Merge>(into, other)
    }

    /// Adds the positions of the filter `other` to the filter `into`.
    pub fn union(&mut self, into: &str, other: &str) -> Result<(), Refusal>
        ensures { Performed (⟦<Session<T> as OfItems>⟧.items)
            (Action.Combine into.now other.now Join.Union) self.old (done_or result) self.new }
    {
        self.join::<Union>(into, other)
    }

    /// Keeps in the filter `into` only the positions that are also in the filter `other`.
    pub fn intersect(&mut self, into: &str, other: &str) -> Result<(), Refusal>
        ensures { Performed (⟦<Session<T> as OfItems>⟧.items)
            (Action.Combine into.now other.now Join.Intersect) self.old (done_or result) self.new }
    {
        self.join::<Intersect>(into, other)
    }

    /// Removes the positions of the filter `other` from the filter `into`.
    pub fn difference(&mut self, into: &str, other: &str) -> Result<(), Refusal>
        ensures { Performed (⟦<Session<T> as OfItems>⟧.items)
            (Action.Combine into.now other.now Join.Difference) self.old (done_or result) self.new }
    {
        self.join::<Difference>(into, other)
    }

    /// Saves an image of a sketch under the name `image`.
    ///
    /// # Errors
    ///
    /// Returns `NoSuchName` if no sketch has the name, and `NameTaken` if an image has its name already. Otherwise returns the
    /// fault of an item that cannot be written, or `NoMemory`.
    pub fn save(&mut self, name: &str, image: &str) -> Result<(), Refusal>
        ensures { Performed (⟦<Session<T> as OfItems>⟧.items)
            (Action.Save name.now image.now) self.old (done_or result) self.new }
    {
        let Some(sketch) = self.sketches.get(name) else {
            return Err(Refusal::NoSuchName);
        };
        if self.images.contains_name(image) {
            return Err(Refusal::NameTaken);
        }
        let saved = sketch.save();
        self.images.keep(self.alloc, image, saved)
    }

    /// Creates a sketch from a saved image.
    ///
    /// # Errors
    ///
    /// Returns `NoSuchName` if no image has its name, and `NameTaken` if a sketch has the name already. Otherwise returns the
    /// image's first fault, or `NoMemory`.
    pub fn restore(&mut self, image: &str, name: &str) -> Result<(), Refusal>
        ensures { Performed (⟦<Session<T> as OfItems>⟧.items)
            (Action.Restore image.now name.now) self.old (done_or result) self.new }
    {
        let saved = self.saved_image(image)?;
        if self.sketches.contains_name(name) {
            return Err(Refusal::NameTaken);
        }
        let read = Sketch::restore(self.alloc, saved.kind(), saved.bytes(), self.key);
        self.sketches.keep(self.alloc, name, read)
    }

    /// Creates a sketch from the bytes of an untrusted image, if it takes at most `max_bytes`.
    ///
    /// # Errors
    ///
    /// Returns `NameTaken` if a sketch has the name already. Otherwise returns the image's first fault, `TableTooLarge` if the
    /// limit is exceeded, or `NoMemory`.
    pub fn load(
        &mut self,
        name: &str,
        kind: ImageKind,
        image: &[u8],
        max_bytes: usize,
    ) -> Result<(), Refusal>
        ensures { Performed (⟦<Session<T> as OfItems>⟧.items)
            (Action.Load name.now kind image.now max_bytes) self.old (done_or result) self.new }
    {
        if self.sketches.contains_name(name) {
            return Err(Refusal::NameTaken);
        }
        let read = Sketch::load(self.alloc, kind, image, max_bytes, self.key);
        self.sketches.keep(self.alloc, name, read)
    }

    /// Returns a copy of the bytes of a saved image.
    ///
    /// # Errors
    ///
    /// Returns `NoSuchName` if no image has the name, and `NoMemory` if the copy cannot be allocated.
    pub fn image(&self, name: &str) -> Result<Vec<u8>, Refusal>
        ensures { Performed (⟦<Session<T> as OfItems>⟧.items)
            (Action.ShowImage name.now) self.now (told_as Reply.Image result) self.now }
    {
        Ok(self.saved_image(name)?.copy_bytes(self.alloc)?)
    }

    /// Returns what a sketch tells of an item: `Reply::Contains` if it is a filter, and `Reply::Bounds` otherwise.
    #[inline(always)]
    pub fn ask<K: ItemKey<T> + RowItem<i64> + RowItem<u64>>(
        &self,
        name: &str,
        item: K,
    ) -> Result<Reply<T>, Refusal>
        ensures performed { (x : T) → IsTrue (K.names item x)
            → Performed (⟦<Session<T> as OfItems>⟧.items)
            (Action.Ask name.now x) self.now (told result) self.now }
        ensures accepted { IfOk result (λ reply. is_refused reply ≡ false) }
    {
        Ok(self.sketch(name)?.ask(item))
    }

    /// Returns an item's estimate and bounds. Also returns `WrongKind` if the sketch is a filter.
    pub fn bounds<K: ItemKey<T> + RowItem<i64> + RowItem<u64>>(
        &self,
        name: &str,
        item: K,
    ) -> Result<Bounds, Refusal>
        ensures { (x : T) → IsTrue (K.names item x) → (reply : Reply T)
            × Performed (⟦<Session<T> as OfItems>⟧.items)
            (Action.Ask name.now x) self.now reply self.now
            × (result ≡ bounds_in reply) }
    {
        let reply = told(self.ask(name, item));
        bounds_in(&reply)
    }

    /// Returns whether a filter contains an item. Also returns `WrongKind` if the sketch is no filter.
    pub fn contains<K: ItemKey<T> + RowItem<i64> + RowItem<u64>>(
        &self,
        name: &str,
        item: K,
    ) -> Result<bool, Refusal>
        ensures { (x : T) → IsTrue (K.names item x) → (reply : Reply T)
            × Performed (⟦<Session<T> as OfItems>⟧.items)
            (Action.Ask name.now x) self.now reply self.now
            × (result ≡ contains_in reply) }
    {
        let reply = told(self.ask(name, item));
        contains_in(&reply)
    }

    /// Returns the numbers of a sketch.
    pub fn status(&self, name: &str) -> Result<Status, Refusal>
        ensures { Performed (⟦<Session<T> as OfItems>⟧.items)
            (Action.GetStatus name.now) self.now (told_as Reply.Status result) self.now }
    {
        Ok(self.sketch(name)?.status())
    }

    /// Returns the frequent items above a threshold, descending by estimate.
    ///
    /// Also returns `NoMemory` if the rows or a clone cannot be allocated.
    pub fn rows(
        &self,
        name: &str,
        error_type: ErrorType,
        threshold: u64,
    ) -> Result<Vec<Row<T>>, Refusal>
        ensures { Performed (⟦<Session<T> as OfItems>⟧.items)
            (Action.ListRows name.now error_type threshold) self.now (told_as Reply.Rows result) self.now }
    {
        self.sketch(name)?.rows(error_type, threshold)
    }

    fn create<S: NewSketch<T> + Drop>(&mut self, name: &str, sizes: S) -> Result<(), Refusal>
        ensures { Performed (⟦<Session<T> as OfItems>⟧.items)
            (Action.Create name.now (S.shape sizes)) self.old (done_or result) self.new }
    {
        if self.sketches.contains_name(name) {
            return Err(Refusal::NameTaken);
        }
        let made = sizes.create(self.alloc, self.key);
        self.sketches.keep(self.alloc, name, made)
    }

    fn join<J: Joining<T>>(&mut self, into: &str, other: &str) -> Result<(), Refusal>
        ensures { Performed (⟦<Session<T> as OfItems>⟧.items)
            (Action.Combine into.now other.now J.join) self.old (done_or result) self.new }
    {
        self.sketches.join::<J>(into, other)
    }

    /// Returns the sketch of the name. Returns `NoSuchName` if there is none.
    fn sketch(&self, name: &str) -> Result<&Sketch<T>, Refusal>
        ensures found { IfOk result (λ sketch. at_name name.now self.now.sketches ≡ Some sketch.now) }
        ensures err { IfErr result (λ e. e ≡ Refusal.NoSuchName) }
        ensures missing { OnErr result (at_name name.now self.now.sketches ≡ None) }
    {
        match self.sketches.get(name) {
            Some(sketch) => Ok(sketch),
            None => Err(Refusal::NoSuchName),
        }
    }

    /// Returns the image of the name. Returns `NoSuchName` if there is none.
    fn saved_image(&self, name: &str) -> Result<&Image, Refusal>
        ensures found { IfOk result (λ image. at_name name.now self.now.images ≡ Some image.now) }
        ensures err { IfErr result (λ e. e ≡ Refusal.NoSuchName) }
        ensures missing { OnErr result (at_name name.now self.now.images ≡ None) }
    {
        match self.images.get(name) {
            Some(image) => Ok(image),
            None => Err(Refusal::NoSuchName),
        }
    }
}

/// Returns the reply, or `Refused` with the reason.
fn told<T>(given: Result<Reply<T>, Refusal>) -> Reply<T>
    ensures { result ≡ told given }
{
    match given {
        Ok(reply) => reply,
        Err(refusal) => Reply::Refused(refusal),
    }
}

/// Returns the bounds that a reply has, the reason of a rejection, or `WrongKind`.
fn bounds_in<T>(reply: &Reply<T>) -> Result<Bounds, Refusal>
    ensures { result ≡ bounds_in reply.now }
{
    match *reply {
        Reply::Bounds {
            estimate,
            lower,
            upper,
        } => Ok(Bounds {
            estimate,
            lower,
            upper,
        }),
        Reply::Refused(refusal) => Err(refusal),
        _ => Err(Refusal::WrongKind),
    }
}

/// Returns whether a reply says that an item is contained, the reason of a rejection, or `WrongKind`.
fn contains_in<T>(reply: &Reply<T>) -> Result<bool, Refusal>
    ensures { result ≡ contains_in reply.now }
{
    match *reply {
        Reply::Contains(found) => Ok(found),
        Reply::Refused(refusal) => Err(refusal),
        _ => Err(Refusal::WrongKind),
    }
}
