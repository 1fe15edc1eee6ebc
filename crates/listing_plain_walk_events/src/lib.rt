// The events of the plain walk: what each leaves pending, and how many labels free.
#![tactic(auto)]

ghost use Rattle.std.specs.Prelude.{◌+◌, ◌<◌};
ghost use Rattle.listing_plain_walk_events.specs.Events.{LeadsTo};

// The height of the stack and the number of labels free.
#[derive(Clone, Copy)]
pub struct Left {
    pub h: u16,
    pub f: u16,
}

// What the event e leaves, with h edges pending besides the one it popped. Where F or B lacks labels, that is an empty stack with
// a label free: a dead end, so the branching needs no test.
pub fn after_event(e: u16, h: u16, f: u16) -> Left
    requires { (e < h + 3) × (h < 1000) }
    ensures { LeadsTo e h f result.h result.f }
{
    match e {
        0 => Left { h, f },
        1 => {
            if 3 <= f {
                Left { h: h + 2, f: f - 3 }
            } else {
                Left { h: 0, f: 1 }
            }
        }
        2 => {
            if 1 <= f {
                Left { h, f: f - 1 }
            } else {
                Left { h: 0, f: 1 }
            }
        }
        _ => Left { h: h - 1, f },
    }
}
