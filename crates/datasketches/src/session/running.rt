//! Running the commands of a session.
ghost use Rattle.std.specs.Prelude.{◌≡◌, List, Result, true, IfOk, IfErr, OnErr, OnOk};
ghost use Rattle.sketch_base.specs.Errors.{no_memory};
ghost use Rattle.counter_table.specs.Bytes.{option_bytes};
ghost use Rattle.datasketches.specs.Actions.{action_of};
ghost use Rattle.datasketches.specs.SessionStandsFor.{SessionStandsFor};
ghost use Rattle.datasketches.specs.Hashing.{HasOneKey};
ghost use Rattle.datasketches.specs.Histories.{Assignment, History, after_one, after_one_told, after, after_told};
ghost use Rattle.datasketches.specs.Loading.{IsTold, AreTold};
ghost use Rattle.datasketches.specs.Performed.{Performed};
ghost use Rattle.datasketches.specs.Replies.{told, is_refused};
ghost use Rattle.datasketches.specs.State.{IsUnchanged};
ghost use Rattle.datasketches.specs.Steps.{Step, Run};

use crate::command::Command;
use crate::of_items::OfItems;
use crate::reply::{Refusal, Reply};
use crate::session::{Session, told};
use sketch_base::Error;
use sketch_bloom::BloomFilterBuilder;
use sketch_countmin::CountMinSizes;
use sketch_frequencies::{EqualClone, FrequentItemValue, FrequentItemsSizes};

impl<T: FrequentItemValue + EqualClone + Drop> Session<T> {
    /// Runs one command: the call of its name.
    ///
    /// It does to the sketch or image that it creates or names what the sketch's own call does. All others are
    /// unchanged. A rejected command changes nothing.
    pub fn apply(&mut self, command: Command<T>) -> Reply<T>
        ensures step { Step (option_bytes T.row) T.eq T.hash_input T.codec T.content self.old command result self.new }
        ensures fits { (a : Assignment T) → SessionStandsFor T.eq T.codec T.content self.old a
            → SessionStandsFor T.eq T.codec T.content self.new (after_one T.hash_input a command result) }
        ensures told { (a : Assignment T) (loaded : History T) → SessionStandsFor T.eq T.codec T.content self.old a
            → IsTold T.eq T.codec T.content command loaded
            → SessionStandsFor T.eq T.codec T.content self.new (after_one_told T.hash_input a command loaded result) }
        ensures keys { self.new.keys ≡ self.old.keys }
        ensures keyed { HasOneKey self.old → HasOneKey self.new }
        ensures refused { is_refused result ≡ true → IsUnchanged self.old self.new }
    {
        self.perform(command)
    }

    /// Makes the call that a command names.
    fn perform(&mut self, command: Command<T>) -> Reply<T>
        ensures { Performed (⟦<Session<T> as OfItems>⟧.items)
            (action_of command) self.old result self.new }
    {
        match command {
            Command::CreateFrequent { name, max_map_size } => {
                Reply::from_outcome(self.create_frequent_items(name.as_str(), max_map_size))
            }
            Command::CreateFrequentSampled {
                name,
                max_map_size,
                sample_size,
            } => {
                let sizes = FrequentItemsSizes {
                    max_map_size,
                    sample_size,
                };
                Reply::from_outcome(self.create_frequent_items_with_sizes(name.as_str(), sizes))
            }
            Command::CreateCountI64 {
                name,
                num_hashes,
                num_buckets,
                seed,
            } => {
                let sizes = CountMinSizes {
                    num_hashes,
                    num_buckets,
                    seed,
                };
                Reply::from_outcome(self.create_count_min_i64(name.as_str(), sizes))
            }
            Command::CreateCountU64 {
                name,
                num_hashes,
                num_buckets,
                seed,
            } => {
                let sizes = CountMinSizes {
                    num_hashes,
                    num_buckets,
                    seed,
                };
                Reply::from_outcome(self.create_count_min_u64(name.as_str(), sizes))
            }
            Command::CreateBloom {
                name,
                num_bits,
                num_hashes,
                seed,
            } => {
                let sizes = BloomFilterBuilder::with_size(num_bits, num_hashes).seed(seed);
                Reply::from_outcome(self.create_bloom_filter(name.as_str(), sizes))
            }
            Command::Add { name, item, weight } => Reply::from_outcome(self.add(
                name.as_str(),
                item,
                weight,
            )),
            Command::AddSigned { name, item, weight } => {
                Reply::from_outcome(self.add_signed(name.as_str(), &item, weight))
            }
            Command::Insert { name, item } => Reply::from_outcome(self.insert(
                name.as_str(),
                &item,
            )),
            Command::Merge { into, other } => Reply::from_outcome(self.merge(
                into.as_str(),
                other.as_str(),
            )),
            Command::Union { into, other } => Reply::from_outcome(self.union(
                into.as_str(),
                other.as_str(),
            )),
            Command::Intersect { into, other } => {
                Reply::from_outcome(self.intersect(into.as_str(), other.as_str()))
            }
            Command::Difference { into, other } => {
                Reply::from_outcome(self.difference(into.as_str(), other.as_str()))
            }
            Command::Reset { name } => Reply::from_outcome(self.reset(name.as_str())),
            Command::Halve { name } => Reply::from_outcome(self.halve(name.as_str())),
            Command::Decay {
                name,
                numerator,
                denominator,
            } => Reply::from_outcome(self.decay(name.as_str(), numerator, denominator)),
            Command::Save { name, image } => Reply::from_outcome(self.save(
                name.as_str(),
                image.as_str(),
            )),
            Command::Restore { image, name } => {
                Reply::from_outcome(self.restore(image.as_str(), name.as_str()))
            }
            Command::Load {
                name,
                kind,
                image,
                max_bytes,
            } => Reply::from_outcome(self.load(name.as_str(), kind, &image, max_bytes)),
            Command::ShowImage { image } => match self.image(image.as_str()) {
                Ok(bytes) => Reply::Image(bytes),
                Err(refusal) => Reply::Refused(refusal),
            },
            Command::Ask { name, item } => told(self.ask(name.as_str(), &item)),
            Command::GetStatus { name } => match self.status(name.as_str()) {
                Ok(status) => Reply::Status(status),
                Err(refusal) => Reply::Refused(refusal),
            },
            Command::ListRows {
                name,
                error_type,
                threshold,
            } => match self.rows(name.as_str(), error_type, threshold) {
                Ok(rows) => Reply::Rows(rows),
                Err(refusal) => Reply::Refused(refusal),
            },
        }
    }

    /// Runs all commands, one after another, and returns their replies in this order.
    ///
    /// # Errors
    ///
    /// Returns `NoMemory` if the replies cannot be allocated. No command is then run.
    pub fn run(&mut self, commands: Vec<Command<T>>) -> Result<Vec<Reply<T>>, Error>
        ensures run { IfOk result (λ replies. Run (option_bytes T.row) T.eq T.hash_input T.codec T.content self.old commands.items replies.items self.new) }
        ensures fits { IfOk result (λ replies. (a : Assignment T) → SessionStandsFor T.eq T.codec T.content self.old a
            → SessionStandsFor T.eq T.codec T.content self.new (after T.hash_input a commands.items replies.items)) }
        ensures told { IfOk result (λ replies. (a : Assignment T) (loaded : List (History T))
            → SessionStandsFor T.eq T.codec T.content self.old a → AreTold T.eq T.codec T.content commands.items loaded
            → SessionStandsFor T.eq T.codec T.content self.new (after_told T.hash_input a commands.items loaded replies.items)) }
        ensures keys { OnOk result (self.new.keys ≡ self.old.keys) }
        ensures keyed { OnOk result (HasOneKey self.old → HasOneKey self.new) }
        ensures err { OnErr result (self.new ≡ self.old) }
        ensures memory { IfErr result (λ e. e ≡ no_memory) }
    {
        let mut replies = Vec::with_capacity(self.alloc, commands.len())?;
        for command in commands {
            let reply = self.apply(command);
            replies.push_reserved(reply);
        }
        Ok(replies)
    }
}
