//! Examples of `crates/sketch_countmin/src/count_min_view.rt`. Written by `tests/docs/examples.py`.
use sketch_base::Error;
use sketch_countmin::CountMinView;

pub fn visits_of_user(image: &[u8], user: u64) -> Result<u32, Error> {
    let visits: CountMinView<u32> = CountMinView::new(image)?;
    Ok(visits.estimate(user))
}

pub fn visits_of_site(visits: &CountMinView<u64>, site: &str) -> u64 {
    visits.estimate_item(site)
}
