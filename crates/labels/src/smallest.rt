// The smallest of several labels.
ghost use Rattle.labels.specs.Order.{SmallestAt};

use crate::order::Ordered;

// The place of the smallest label, the first of them where several are the same.
pub fn smallest<L: Ordered>(labels: &[L]) -> Option<usize>
    ensures { SmallestAt L.order labels.now result }
{
    if labels.is_empty() {
        return None;
    }
    // Kept a loop over places: a walk for the smallest label and one for its place take twice the time.
    let mut best = 0;
    for i in 1..labels.len() {
        if labels[i].is_below(labels[best]) {
            best = i;
        }
    }
    Some(best)
}
