// States of a word that is read: how many labels are pending and how many are still free. No diagram is made.
#![tactic(auto)]

ghost use Rattle.std.specs.Prelude.{◌≡◌, ◌+◌, ◌≤◌};
ghost use Rattle.listing_successor_states.specs.States.{stack_state, dead_end, state_after_item, state_after_first};

// How many labels are pending, and how many are still free.
#[derive(Clone, Copy)]
pub struct StackState {
    pub height: u16,
    pub free: u16,
}

pub fn stack_state(height: u16, free: u16) -> StackState
    ensures { result ≡ stack_state height free }
{
    StackState { height, free }
}

// Where an item that cannot be read leads: nothing ends from here.
fn dead_end() -> StackState
    ensures { result ≡ dead_end }
{
    stack_state(0, 1)
}

// The state after an item.
pub fn state_after_item(height: u16, free: u16, item: u16) -> StackState
    requires { height + free ≤ 50 }
    ensures { result ≡ state_after_item height free item }
{
    if height == 0 {
        return dead_end();
    }
    if item == 0 {
        return stack_state(height - 1, free);
    }
    if item == 1 {
        if free < 3 {
            return dead_end();
        }
        return stack_state(height + 1, free - 3);
    }
    if item == 2 {
        if free == 0 {
            return dead_end();
        }
        return stack_state(height - 1, free - 1);
    }
    if item - 3 < height - 1 {
        return stack_state(height - 2, free);
    }
    dead_end()
}

// The state after the first item, U or T.
pub fn state_after_first(n: u16, item: u16) -> StackState
    ensures { result ≡ state_after_first n item }
{
    if item == 0 {
        if n == 0 {
            return dead_end();
        }
        return stack_state(1, n - 1);
    }
    if item == 1 {
        if n < 3 {
            return dead_end();
        }
        return stack_state(3, n - 3);
    }
    dead_end()
}
