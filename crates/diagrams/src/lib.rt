// Trivalent diagrams: the type of a rooted diagram with its limits, and check, which says whether lent lists and a root are one.
//
// Check tests its conditions in their order and answers the number of the first that fails, 1 to 8. It takes lists of any
// length and any root, and its time is linear in the size: each edge is looked at a fixed number of times. Whoever labels the diagram
// anyway needs no search for the eighth, that it is connected, and tests the first seven by check_maps.
#![tactic(auto)]

ghost use Rattle.std.specs.Prelude.{◌≡◌, ◌↔◌, true, [], ◌∷◌};
ghost use Rattle.diagrams.specs.Check.{Connected, Mapped, Accepts, CheckPromise, MapsPromise};
ghost use Rattle.diagrams.specs.Held.{Held, CheckedDiagramPromise};

pub use diagrams_entries::all_reached;
use diagrams_entries::{entries_in, within};
use diagrams_orders::{thrice, twice};
use diagrams_search::{connected_in, lower_neighbours};
use lists::fill;
use refusals::Refusal;

// A rooted diagram held by value: its lists stand in the first size places, zeros after them.
#[derive(Drop)]
pub struct Diagram {
    pub s0: [u16; Diagram::MAX_SIZE],
    pub s1: [u16; Diagram::MAX_SIZE],
    pub size: u16,
    pub root: u16,
}

// What Diagram::checked answers. The diagram is not inside the Result, because CheckedDiagramPromise fixes it in a refusal too: the single edge.
#[derive(Drop)]
pub struct Made {
    pub verdict: Result<(), Refusal>,
    pub diagram: Diagram,
}

impl Diagram {
    // The largest size of a given diagram.
    pub const MAX_SIZE: usize = 1024;
    // The largest size of a counted, listed or shared one.
    pub const MAX_LISTED: usize = 50;

    // The diagram of one edge, which both maps fix.
    pub fn single() -> Diagram
        ensures { Held result (1 ∷ []) (1 ∷ []) 1 }
    {
        let mut s0 = [0u16; Diagram::MAX_SIZE];
        s0[0] = 1;
        let s1 = s0;
        Diagram {
            s0,
            s1,
            size: 1,
            root: 1,
        }
    }

    // The lent diagram by value where check accepts it; a refusal comes with the single edge.
    pub fn checked(s0: &[u16], s1: &[u16], root: u64) -> Made
        ensures { CheckedDiagramPromise s0.now s1.now root result }
    {
        let verdict = check(s0, s1, root);
        match verdict {
            Ok(()) => Made {
                verdict,
                diagram: held(s0, s1, root),
            },
            Err(_) => Made {
                verdict,
                diagram: Diagram::single(),
            },
        }
    }
}

// The lent lists and the root by value.
fn held(s0: &[u16], s1: &[u16], root: u64) -> Diagram
    requires { Accepts s0.now s1.now root }
    ensures { Held result s0.now s1.now root }
{
    let mut black = [0u16; Diagram::MAX_SIZE];
    let mut white = [0u16; Diagram::MAX_SIZE];
    fill(&mut black, s0);
    fill(&mut white, s1);
    Diagram {
        s0: black,
        s1: white,
        size: s0.len() as u16,
        root: root as u16,
    }
}

// Whether the lent lists are maps of the edges 1..n and the root is an edge. 1 length of s0 is 0 or above 1,024; 2 lengths differ;
// 3 root outside 1..n; 4 an s0 entry outside 1..n; 5 the same in s1; 6 s0 thrice moves an edge; 7 s1 twice does.
pub fn check_maps(s0: &[u16], s1: &[u16], root: u64) -> Result<(), Refusal>
    ensures { MapsPromise s0.now s1.now root result }
{
    let n = s0.len();
    if !within(n as u64, Diagram::MAX_SIZE) {
        return Err(Refusal::SizeOutOfRange);
    }
    if s1.len() != n {
        return Err(Refusal::ListsDiffer);
    }
    if !within(root, n) {
        return Err(Refusal::RootOutOfRange);
    }
    if !entries_in(s0) {
        return Err(Refusal::BlackOutOfRange);
    }
    if !entries_in(s1) {
        return Err(Refusal::WhiteOutOfRange);
    }
    if !thrice(s0) {
        return Err(Refusal::ThriceMoves);
    }
    if !twice(s1) {
        return Err(Refusal::TwiceMoves);
    }
    Ok(())
}

// Whether the lent lists and root are a rooted diagram: 1 to 7 as check_maps; 8 not connected.
pub fn check(s0: &[u16], s1: &[u16], root: u64) -> Result<(), Refusal>
    ensures { CheckPromise s0.now s1.now root result }
{
    check_maps(s0, s1, root)?;
    if !connected(s0, s1) {
        return Err(Refusal::NotConnected);
    }
    Ok(())
}

// Up to this size the search has small arrays: clearing large ones would take longer than the search itself.
const SMALL: usize = 64;

// Whether every edge is reached from edge 1. A diagram that the library wrote needs no search: in a characteristic labelling every edge
// but 1 has a neighbour with a smaller number.
fn connected(s0: &[u16], s1: &[u16]) -> bool
    requires { Mapped s0.now s1.now }
    ensures { (result ≡ true) ↔ Connected s0.now s1.now }
{
    if lower_neighbours(s0, s1) {
        return true;
    }
    if s0.len() <= SMALL {
        let mut marks = [0u8; SMALL];
        let mut list = [0u16; SMALL + 1];
        return connected_in(s0, s1, &mut marks, &mut list);
    }
    let mut marks = [0u8; Diagram::MAX_SIZE];
    let mut list = [0u16; Diagram::MAX_SIZE + 1];
    connected_in(s0, s1, &mut marks, &mut list)
}
