// The least event that leads on from a state to the end of a word, and whether one does.
#![tactic(auto)]

ghost use Rattle.std.specs.Prelude.{◌≡◌, ◌+◌, ◌≤◌};
ghost use Rattle.listing_successor_events.specs.Events.{can_end, can_end_after, join_above, allowed_above, least_above, least_event};

use listing_successor_states::state_after_item;

// Whether some items end the word from a state. Apart from an emptied stack, one pending label with two labels left is the only dead end.
pub fn can_end(height: u16, free: u16) -> bool
    ensures { result ≡ can_end height free }
{
    if height == 0 {
        return free == 0;
    }
    if height == 1 {
        return free != 2;
    }
    true
}

// Whether an item can be read at a state, and some items end the word after it.
fn can_end_after(height: u16, free: u16, item: u16) -> bool
    requires { height + free ≤ 50 }
    ensures { result ≡ can_end_after height free item }
{
    let l = state_after_item(height, free, item);
    can_end(l.height, l.free)
}

// Whether an event lies above an item and leads to an end.
fn allowed_above(height: u16, free: u16, item: u16, event: u16) -> bool
    requires { height + free ≤ 50 }
    ensures { result ≡ allowed_above height free item event }
{
    if item < event {
        return can_end_after(height, free, event);
    }
    false
}

// The first J above an item.
fn join_above(item: u16) -> u16
    requires { item ≤ 51 }
    ensures { result ≡ join_above item }
{
    if item < 3 {
        return 3;
    }
    item + 1
}

// The least event above an item that leads to an end; 0 where there is none. All J lead to the same state, so the first will do.
pub fn least_above(height: u16, free: u16, item: u16) -> u16
    requires { (height + free ≤ 50) × (item ≤ 51) }
    ensures { result ≡ least_above height free item }
{
    if allowed_above(height, free, item, 1) {
        return 1;
    }
    if allowed_above(height, free, item, 2) {
        return 2;
    }
    let j = join_above(item);
    if can_end_after(height, free, j) {
        return j;
    }
    0
}

// The least event that leads to an end.
pub fn least_event(height: u16, free: u16) -> u16
    requires { height + free ≤ 50 }
    ensures { result ≡ least_event height free }
{
    if can_end_after(height, free, 0) {
        return 0;
    }
    least_above(height, free, 0)
}
