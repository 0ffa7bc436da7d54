//! Results of the examples of frequent items.
use super::RANDOM;
use crate::counter_table_docs::table_key;
use crate::lines::ResultLines;
use crate::pages::calling;
use crate::sketch_frequencies_docs::{
    error_type, frequent_item_value, frequent_items_image_options as image_options,
    frequent_items_sizes, frequent_items_sketch as sketch,
    frequent_items_sketch_batches as batches, frequent_items_sketch_images as images,
    frequent_items_sketch_merging as merging, frequent_items_sketch_reports as reports,
    frequent_items_sketch_updates as updates, readme, row, sizes,
};
use sketch_base::{Lines, OffsetStrings};
use sketch_frequencies::{Error, ErrorType, FrequentItemsSketch, ItemBounds};
use std::alloc::Global;

pub fn write(lines: &mut ResultLines) {
    let alloc = lines.alloc;
    lines.show("heaviest", &calling::heaviest(alloc, &[3, 1, 3, 3, 2, 3]));
    lines.show("apples_of_both_shops", &readme::apples_of_both_shops(alloc));
    lines.show(
        "largest_weight_of_the",
        &readme::largest_weight_of_the(alloc, "the cat and the dog"),
    );
    lines.show("bytes_of", &frequent_item_value::bytes_of(alloc, &1_u64));
    lines.show("kind_of_report", &error_type::kind_of_report(true));
    lines.show("heavier_pages", &heavier_than_three(alloc));
    lines.show("surely_weighs_more", &is_above_itself(alloc));
    lines.show("weights_of_four", &weights_of_visitors(alloc));
    lines.show("add_even", &even_numbers(alloc));
    lines.show("visits_of_the_week", &visits_of_days(alloc));
    lines.show("visits_within_a_percent", &slots(alloc));
    lines.show("words_of_line", &num_words(alloc));
    lines.show("log", &num_lines(alloc));
    lines.show("bounds_of_fruit", &bounds_of_fruit(alloc));
    lines.show("takes_too_much", &page_takes_too_much(alloc));
    lines.show("received", &weight_of_sender(alloc));
    lines.show("options_for_untrusted", &limit());
    lines.show("with_cheap_purges", &sample_size(alloc));
}

/// Creates a sketch of two pages.
fn of_two_pages(alloc: Global) -> Result<FrequentItemsSketch<u64>, Error> {
    let mut pages = FrequentItemsSketch::new(alloc, 8)?;
    pages.update_with_count(1, 5)?;
    pages.update_with_count(2, 3)?;
    Ok(pages)
}

/// Returns the numbers of pages that surely weigh more than 3, and that may.
fn heavier_than_three(alloc: Global) -> Result<(usize, usize), Error> {
    let pages = of_two_pages(alloc)?;
    reports::heavier_pages(&pages, 3)
}

/// Returns whether the first row of a sketch surely weighs more than itself.
fn is_above_itself(alloc: Global) -> Result<Option<bool>, Error> {
    let rows = of_two_pages(alloc)?.frequent_items(ErrorType::NoFalsePositives)?;
    Ok(rows.first().map(|it| row::surely_weighs_more(it, it)))
}

fn weights_of_visitors(alloc: Global) -> Result<[u64; 4], Error> {
    let visitors = batches::sketch_of_visitors(alloc, &[7, 8, 7])?;
    Ok(batches::weights_of_four(&visitors, &[7, 8, 9, 7]))
}

fn even_numbers(alloc: Global) -> Result<[u64; 4], Error> {
    let mut sketch = FrequentItemsSketch::new(alloc, 64)?;
    batches::add_even(&mut sketch, &[2, 1, 2])?;
    Ok(batches::weights_of_four(&sketch, &[1, 2, 3, 4]))
}

/// Returns visits of a week of three days, of which two are equal.
fn visits_of_days(alloc: Global) -> Result<[u64; 4], Error> {
    let mut week = of_two_pages(alloc)?;
    let day = batches::sketch_of_visitors(alloc, &[2, 3])?;
    merging::visits_of_the_week(&mut week, &[&day, &day])?;
    Ok(batches::weights_of_four(&week, &[1, 2, 3, 4]))
}

/// Returns the maximum size that was suggested.
fn slots(alloc: Global) -> Result<usize, Error> {
    let visits = sizes::visits_within_a_percent(alloc)?;
    Ok(visits.max_map_size())
}

/// Returns the number of words of a line and one more word, and how many of them are distinct.
fn num_words(alloc: Global) -> Result<(u64, usize), Error> {
    let mut words = batches::words_of_line(alloc, "to be\tor not  to be\n")?;
    updates::add_word(&mut words, "be")?;
    Ok((words.total_weight(), words.num_active_items()))
}

/// Returns the number of lines of a log, and how many of them are distinct.
fn num_lines(alloc: Global) -> Result<(u64, usize), Error> {
    let mut log: FrequentItemsSketch<String> = FrequentItemsSketch::new(alloc, 1024)?;
    log.update_all(Lines::new("GET /\r\nGET /\n\nPUT /"))?;
    Ok((log.total_weight(), log.num_active_items()))
}

/// Returns the bounds of two fruits after names and prices.
fn bounds_of_fruit(alloc: Global) -> Result<[ItemBounds; 2], Error> {
    let mut sketch = FrequentItemsSketch::new(alloc, 64)?;
    sketch.update_all(OffsetStrings::new(b"pearpear", [0_u32, 4, 8].as_slice())?)?;
    batches::add_prices(&mut sketch)?;
    let none = ItemBounds {
        lower_bound: 0,
        estimate: 0,
        upper_bound: 0,
    };
    let mut bounds = [none; 2];
    batches::bounds_of_fruit(&sketch, &mut bounds);
    Ok(bounds)
}

/// Returns whether a sketch of one page of two bytes takes more bytes than two budgets: eight slots of 44 bytes and the two of
/// the page are 354.
fn page_takes_too_much(alloc: Global) -> Result<[bool; 2], Error> {
    let mut pages = FrequentItemsSketch::new(alloc, 8)?;
    pages.update(String::from_str(alloc, "ab")?)?;
    Ok([
        images::takes_too_much(&pages, 353),
        images::takes_too_much(&pages, 354),
    ])
}

/// Returns the weight of a sender in a sketch that is read from its image.
fn weight_of_sender(alloc: Global) -> Result<u64, Error> {
    let mut sent = sketch::senders(alloc, &RANDOM)?;
    sent.update_with_count(7, 5)?;
    let image = sent.serialize()?;
    Ok(images::received(alloc, &image, table_key::key_of(&RANDOM))?.estimate(&7))
}

fn limit() -> usize {
    image_options::options_for_untrusted(table_key::key_of(&RANDOM)).max_bytes
}

fn sample_size(alloc: Global) -> Result<usize, Error> {
    let visits = frequent_items_sizes::with_cheap_purges(alloc, table_key::key_of(&RANDOM))?;
    Ok(visits.sample_size())
}
