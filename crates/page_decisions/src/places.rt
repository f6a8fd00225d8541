//! The pages that a copy took, each in its own place.

ghost use Rattle.std.specs.Prelude.{ℕ, ◌≡◌, ◌<◌, ◌≤◌, length, map, slice_index_or};
ghost use Rattle.page_core.specs.declared.page.Page.{Page};
ghost use Rattle.page_decisions.specs.Slots.{NumbersRise, laid, page_list, values};

use page_core::{Page, PageNo};

/// Puts each page in the place of its number, if there is one.
pub fn lay_over<'a>(places: &'a [Box<Page>], pages: &mut [Option<&'a Page>])
    ensures { map page_list pages.new ≡ laid (values places.now) (map page_list pages.old) }
{
    for i in 0..places.len() {
        let place = &places[i];
        let number = place.number.0 as usize;
        if number < pages.len() {
            pages[number] = Some(place);
        }
    }
}

/// Where the first page stands that has at least this number, in a list where the numbers rise.
pub fn first_from(places: &[Box<Page>], number: PageNo) -> usize
    requires { NumbersRise (values places.now) }
    ensures within { result ≤ length (values places.now) }
    ensures before { (k : ℕ) (d : Page) → k < result
        → (slice_index_or (values places.now) k d).number < number }
    ensures at { (d : Page) → result < length (values places.now)
        → number ≤ (slice_index_or (values places.now) result d).number }
{
    let mut from = 0;
    let mut end = places.len();
    while from < end {
        let middle = from + (end - from) / 2;
        if places[middle].number.0 < number.0 {
            from = middle + 1;
        } else {
            end = middle;
        }
    }
    from
}
