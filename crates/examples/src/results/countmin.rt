//! Results of the examples of Count-Min sketches.
use crate::lines::ResultLines;
use crate::sketch_countmin_docs::{
    count_min_image_options, count_min_items, count_min_sizes, count_min_sketch as sketch,
    count_min_sketch_aging as aging, count_min_sketch_batches as batches,
    count_min_sketch_images as images, count_min_value, count_min_view as view, readme, row_item,
    sizes, unsigned_count_min_value,
};
use sketch_base::{Error, Lines, OffsetStrings, Strs};
use sketch_countmin::{CountMinImageOptions, CountMinSketch, CountMinView};
use std::alloc::Global;

pub fn write(lines: &mut ResultLines) {
    let alloc = lines.alloc;
    lines.show("bytes_of_apple", &sketch::bytes_of_apple(alloc));
    lines.show("apples_in_store", &readme::apples_in_store(alloc));
    lines.show("apples_of_both_days", &sketch::apples_of_both_days(alloc));
    lines.show("age", &aged_apples(alloc));
    lines.show("sent_counts", &sent_apples(alloc));
    lines.show("uploaded_counts", &uploaded_apples(alloc));
    lines.show("sum_of_two_images", &apples_of_two_images(alloc));
    lines.show("halve", &half_of_nine(alloc));
    lines.show("sell", &stock(alloc));
    lines.show("count_page", &visits_of_pages(alloc));
    lines.show("begin_next_day", &visits_of_days(alloc));
    lines.show("visits_of_site", &visits_of_site(alloc));
    lines.show("visits_of_user", &visits_of_user(alloc));
    lines.show("count_visits", &visits_and_words(alloc));
    lines.show("count_text", &words_and_lines(alloc));
    lines.show("count_even", &even_numbers(alloc));
    lines.show("count_batch", &visits_of_users(alloc));
    lines.show("visits_of_both", &visits_of_home(alloc));
    lines.show("counts_of_day", &visits_of_day(alloc));
    lines.show("add_weekend", &bytes_of_week(alloc));
    lines.show("bytes_within_a_thousandth", &shape(alloc));
    lines.show("empty_traffic", &seed(alloc));
}

/// Creates a sketch of ten apples, and ages it.
fn aged(alloc: Global) -> Result<CountMinSketch<u64>, Error> {
    let mut counts = CountMinSketch::new(alloc, 4, 128)?;
    counts.update_with_weight("apple", 10)?;
    aging::age(&mut counts);
    Ok(counts)
}

fn aged_apples(alloc: Global) -> Result<u64, Error> {
    Ok(aged(alloc)?.estimate("apple"))
}

fn sent_apples(alloc: Global) -> Result<u64, Error> {
    let counts = aged(alloc)?;
    Ok(images::sent_counts(alloc, &counts)?.estimate("apple"))
}

fn image_of_apples(alloc: Global) -> Result<Vec<u8>, Error> {
    aged(alloc)?.serialize()
}

fn uploaded_apples(alloc: Global) -> Result<u64, Error> {
    let image = image_of_apples(alloc)?;
    let counts = count_min_image_options::uploaded_counts(alloc, &image)?;
    Ok(counts.estimate("apple"))
}

/// Returns the apples of two equal images.
fn apples_of_two_images(alloc: Global) -> Result<u64, Error> {
    let mut images = image_of_apples(alloc)?;
    images.extend_from_slice(&image_of_apples(alloc)?)?;
    let sum = images::sum_of_two_images(alloc, &images, CountMinImageOptions::default())?;
    Ok(sum.estimate("apple"))
}

fn half_of_nine(alloc: Global) -> Result<u64, Error> {
    let mut counts = aged(alloc)?;
    unsigned_count_min_value::halve(&mut counts);
    Ok(count_min_value::weight_of_all(&counts))
}

fn stock(alloc: Global) -> Result<i64, Error> {
    let mut stock = CountMinSketch::new(alloc, 4, 128)?;
    sketch::sell(&mut stock, "apple", -3)?;
    Ok(stock.estimate("apple"))
}

/// Creates a sketch of 1543 visits.
fn visits(alloc: Global) -> Result<CountMinSketch<u64>, Error> {
    let mut visits = CountMinSketch::new(alloc, 4, 128)?;
    sketch::count_page(&mut visits, "ann")?;
    visits.update_all(OffsetStrings::new(b"annbob", [0_u64, 3, 6].as_slice())?)?;
    batches::count_bytes(&mut visits, &["bob", "eve"], [1500, 40])?;
    Ok(visits)
}

/// Returns the visits of two pages, and an upper bound of those of the first.
fn visits_of_pages(alloc: Global) -> Result<[u64; 3], Error> {
    let visits = visits(alloc)?;
    Ok([
        sketch::visits_of_page(&visits, "ann"),
        sketch::visits_of_page(&visits, "bob"),
        sketch::most_visits_of_page(&visits, "ann"),
    ])
}

fn visits_of_days(alloc: Global) -> Result<[u64; 2], Error> {
    let mut visits = visits(alloc)?;
    let first = sketch::begin_next_day(&mut visits);
    Ok([first, sketch::begin_next_day(&mut visits)])
}

fn visits_of_site(alloc: Global) -> Result<u64, Error> {
    let image = visits(alloc)?.serialize()?;
    let visits = CountMinView::new(&image)?;
    Ok(view::visits_of_site(&visits, "bob"))
}

fn visits_of_user(alloc: Global) -> Result<u32, Error> {
    let mut visits = CountMinSketch::new(alloc, 4, 128)?;
    batches::count_batch(&mut visits, &[7, 9, 7])?;
    view::visits_of_user(&visits.serialize()?, 7)
}

/// Returns the visits of a user, and how often a text has a word.
fn visits_and_words(alloc: Global) -> Result<[u64; 2], Error> {
    let mut counts = CountMinSketch::new(alloc, 4, 128)?;
    readme::count_visits(&mut counts, &[7, 9, 7])?;
    readme::count_words(&mut counts, "to be or to be to")?;
    Ok([counts.estimate(7_u64), counts.estimate("to")])
}

/// Returns the estimates of a word and of a line after a text and a log.
fn words_and_lines(alloc: Global) -> Result<[u64; 2], Error> {
    let mut counts = CountMinSketch::new(alloc, 4, 128)?;
    batches::count_text(&mut counts, "be or be")?;
    counts.update_all(Lines::new("be\nor not\n"))?;
    Ok([counts.estimate("be"), counts.estimate("or not")])
}

fn even_numbers(alloc: Global) -> Result<[u64; 2], Error> {
    let mut counts = CountMinSketch::new(alloc, 4, 128)?;
    batches::count_even(&mut counts, &[2, 1, 2])?;
    Ok([counts.estimate(2_u64), counts.estimate(1_u64)])
}

fn visits_of_users(alloc: Global) -> Result<[u32; 2], Error> {
    let mut visits = CountMinSketch::new(alloc, 4, 128)?;
    batches::count_batch(&mut visits, &[7, 9, 7])?;
    Ok(batches::visits_of(&visits, &[7, 9]))
}

/// Returns the visits of two pages, of which one was counted, and twice the visits of that one.
fn visits_of_home(alloc: Global) -> Result<([u32; 2], u32), Error> {
    let mut visits = CountMinSketch::new(alloc, 4, 128)?;
    visits.update("home")?;
    let mut estimates = [0; 2];
    visits.estimate_all(Strs(&["home", "help"]), &mut estimates);
    Ok((
        estimates,
        row_item::visits_of_both(&visits, &visits, "home"),
    ))
}

fn visits_of_day(alloc: Global) -> Result<u64, Error> {
    let day = count_min_items::counts_of_day(alloc, [7_u64, 9, 7].as_slice())?;
    Ok(day.estimate(7_u64))
}

/// Returns the bytes of two hosts in a week of three equal days.
fn bytes_of_week(alloc: Global) -> Result<[u64; 2], Error> {
    let mut week = CountMinSketch::new(alloc, 4, 128)?;
    week.update_all_with_weights([7_u32, 9].as_slice(), &[5, 6])?;
    let saturday = week.try_clone()?;
    batches::add_weekend(&mut week, &saturday, &saturday)?;
    Ok([week.estimate(7_u32), week.estimate(9_u32)])
}

fn seed(alloc: Global) -> Result<u64, Error> {
    let counts = count_min_sizes::empty_traffic(alloc, 77)?;
    Ok(counts.seed())
}

/// Returns the numbers of hashes and buckets that were suggested.
fn shape(alloc: Global) -> Result<(u8, u32), Error> {
    let counts = sizes::bytes_within_a_thousandth(alloc)?;
    Ok((counts.num_hashes(), counts.num_buckets()))
}
