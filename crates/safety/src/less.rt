//! The last gross above another of which less is left.
ghost use Rattle.safety.specs.Less.{LastLess};

use crate::below::last_below;
use book::Book;
use hinges::{Sweep, hinges_of};
use segments::segment_from;

/// The last gross above this one, up to the bound, of which less is left, if there is one: by segments from the bound down, and then
/// on its own, whose line goes on from it.
pub(crate) fn last_less(book: &Book, gross: u32) -> Option<u32>
    ensures { LastLess book.now.rules book.now.bound gross result }
{
    if book.bound() <= gross {
        return None;
    }
    let own = segment_from(book, gross);
    let in_order = hinges_of(book);
    let hinges = in_order.as_slice();
    let mut last = book.bound();
    let mut sweep = Sweep::up_to(hinges, last);
    while own.to <= last {
        let segment = sweep.segment(hinges, last);
        let less = last_below(segment, own.net);
        if less.is_some() {
            return less;
        }
        sweep = sweep.past(hinges, segment);
        last = segment.from - 1;
    }
    last_below(own, own.net)
}
