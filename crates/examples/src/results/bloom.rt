//! Results of the examples of filters.
use crate::lines::ResultLines;
use crate::sketch_bloom_docs::{
    bloom_filter, bloom_filter_batches as batches, bloom_filter_builder as builder,
    bloom_filter_images as images, bloom_filter_view as view, readme, sizes,
};
use sketch_base::Error;
use sketch_bloom::BloomFilterView;
use std::alloc::Global;

pub fn write(lines: &mut ResultLines) {
    let alloc = lines.alloc;
    lines.show("seen_by_both", &bloom_filter::seen_by_both(alloc));
    lines.show(
        "contained_in_union",
        &bloom_filter::contained_in_union(alloc),
    );
    lines.show("still_refused", &readme::still_refused(alloc));
    lines.show(
        "orders_to_join",
        &readme::orders_to_join(alloc, &[7, 9], &[1, 7, 9, 7, 2]),
    );
    let ended = write_visitors(lines);
    lines.show("visitors", &ended);
    let ended = write_names(lines);
    lines.show("names", &ended);
    lines.show("add_visitors_of_weekend", &known_in_week(alloc));
    lines.show("union_of_two_images", &known_to_union(alloc));
    lines.show("may_have_key", &keys_of_image(alloc));
    lines.show("known_of_four by image", &known_to_image(alloc));
    lines.show("filter_for", &size(alloc));
}

fn write_visitors(lines: &mut ResultLines) -> Result<(), Error> {
    let mut seen = builder::filter_of_visitors(lines.alloc)?;
    lines.show(
        "is_first_visit",
        &bloom_filter::is_first_visit(&mut seen, 7),
    );
    lines.show(
        "is_first_visit",
        &bloom_filter::is_first_visit(&mut seen, 7),
    );
    lines.show(
        "known_of_four",
        &batches::known_of_four(&seen, &[7, 8, 9, 10]),
    );
    lines.show(
        "repeated_of_four",
        &batches::repeated_of_four(&mut seen, &[7, 8, 8, 9]),
    );
    lines.show("insert_even", &batches::insert_even(&mut seen, &[11, 12]));
    batches::insert_numbers(&mut seen, &[13]);
    lines.show(
        "known_of_four",
        &batches::known_of_four(&seen, &[10, 11, 12, 13]),
    );
    Ok(())
}

fn write_names(lines: &mut ResultLines) -> Result<(), Error> {
    let mut names = builder::filter_of_visitors(lines.alloc)?;
    lines.show(
        "vocabulary_has",
        &batches::vocabulary_has(&mut names, "to be", "be"),
    );
    lines.show(
        "block_list_has",
        &batches::block_list_has(&mut names, "ann\r\nbob lee\n", "bob lee"),
    );
    bloom_filter::block(&mut names, "eve");
    lines.show("is_blocked", &bloom_filter::is_blocked(&names, "eve"));
    lines.show("is_blocked", &bloom_filter::is_blocked(&names, "lee"));
    lines.show("is_repeated", &bloom_filter::is_repeated(&mut names, "dan"));
    lines.show("is_repeated", &bloom_filter::is_repeated(&mut names, "dan"));
    lines.show(
        "block_names",
        &batches::block_names(&mut names, b"roysue", &[0, 3, 6]),
    );
    lines.show(
        "are_blocked",
        &batches::are_blocked(&names, &["sue", "abe", "roy", "roysue"]),
    );
    lines.show(
        "repeated_names",
        &batches::repeated_names(&mut names, &["abe", "ann", "abe", "una"]),
    );
    Ok(())
}

/// Returns which of four visitors are known in a week, of which three came on a Saturday.
fn known_in_week(alloc: Global) -> Result<[bool; 4], Error> {
    let mut saturday = builder::filter_of_visitors(alloc)?;
    batches::insert_numbers(&mut saturday, &[7, 8, 9]);
    let mut week = builder::filter_of_visitors(alloc)?;
    batches::add_visitors_of_weekend(&mut week, &saturday, &saturday)?;
    Ok(batches::known_of_four(&week, &[7, 8, 9, 10]))
}

/// Returns the image of a filter that contains a visitor and a name.
fn image(alloc: Global, visitor: u64, name: &str) -> Result<Vec<u8>, Error> {
    let mut seen = builder::filter_of_visitors(alloc)?;
    batches::insert_numbers(&mut seen, &[visitor]);
    bloom_filter::block(&mut seen, name);
    images::sent(alloc, &seen)?.serialize()
}

/// Returns which of four visitors the union of two images contains.
fn known_to_union(alloc: Global) -> Result<[bool; 4], Error> {
    let mut images = image(alloc, 7, "eve")?;
    images.extend_from_slice(&image(alloc, 9, "dan")?)?;
    let both = images::union_of_two_images(alloc, &images)?;
    Ok(batches::known_of_four(&both, &[7, 8, 9, 10]))
}

/// Returns whether the filter in an image may have two keys, of which the first was inserted.
fn keys_of_image(alloc: Global) -> Result<[bool; 2], Error> {
    let image = image(alloc, 7, "eve")?;
    Ok([
        view::may_have_key(&image, 7)?,
        view::may_have_key(&image, 8)?,
    ])
}

/// Returns whether the filter in an image contains a name, and which of four visitors it contains.
fn known_to_image(alloc: Global) -> Result<(bool, [bool; 4]), Error> {
    let image = image(alloc, 7, "eve")?;
    let known = BloomFilterView::new(&image)?;
    let visitors = view::known_of_four(&known, &[7, 8, 9, 10]);
    Ok((view::is_blocked(&known, "eve"), visitors))
}

/// Returns the numbers of bits and hashes that were suggested. 9603 bits are requested, and rounded up to 151 words.
fn size(alloc: Global) -> Result<(usize, u16), Error> {
    let filter = sizes::filter_for(alloc, 1000)?;
    Ok((filter.capacity(), filter.num_hashes()))
}
