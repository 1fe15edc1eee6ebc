// Whether two accepted diagrams are isomorphic, with their roots and without: a question about words.
#![tactic(auto)]

ghost use Rattle.std.specs.Prelude.{◌≡◌, ◌↔◌, true};
ghost use Rattle.diagrams.specs.Check.{Accepts};
ghost use Rattle.labelling_isomorphism.specs.Isomorphic.{IsomorphicBy};

use labelling_comparison::{Question, ask};

// Whether two accepted diagrams are isomorphic, with their roots or without: whether the second's word is the first's, or that of some
// rooting of the first.
pub fn isomorphic(
    s0: &[u16],
    s1: &[u16],
    r: u64,
    t0: &[u16],
    t1: &[u16],
    q: u64,
    rooted: bool,
) -> bool
    requires { Accepts s0.now s1.now r × Accepts t0.now t1.now q }
    ensures { (result ≡ true) ↔ IsomorphicBy rooted s0.now s1.now r t0.now t1.now q }
{
    if s0.len() != t0.len() {
        return false;
    }
    if rooted {
        return ask(s0, s1, r, t0, t1, q, Question::Root) == 1;
    }
    ask(s0, s1, r, t0, t1, q, Question::Any) == 1
}
