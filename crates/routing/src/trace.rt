// The trail of a search that found a landing.
ghost use Rattle.std.specs.Prelude.{◌≡◌, ℕ, ◌<◌, ◌≤◌, length, drop, slice_index};
ghost use Rattle.routing.specs.Courses.{Course};

// Writes the way that a search took, from its first cell to the cell at place `last` of the queue, to the end of `trail`, and
// gives back where it begins there. It takes the queue and the places alone: of what a search remembers it wants no more.
pub fn trace(queue: &[u16], from: &[u16], last: u16, trail: &mut [u16]) -> usize
    requires earlier { (k : ℕ) → 0 < k → k ≤ last → slice_index from.now k < k }
    requires queued { last < length queue.now }
    requires noted { last < length from.now }
    requires room { last < length trail.old }
    ensures inside { result < length trail.old }
    ensures course { Course queue.now from.now last 0 (drop result trail.new) }
{
    let mut place = last;
    // By place: after an adapter of `iter_mut` nothing is known of the numbers that were written.
    for first in (0..trail.len()).rev() {
        trail[first] = queue[place as usize];
        if place == 0 {
            return first;
        }
        place = from[place as usize];
    }
    // There is room for all places up to `last`, and each step goes back to an earlier one.
    unreachable!()
}
