// Given diagrams, 1 to 1,024 edges.
ghost use Rattle.std.specs.Prelude.{◌≡◌, ◌↔◌, true, Result, ℕ, Bool};
ghost use Rattle.refusals.specs.declared.Refusal.{Refusal};
ghost use Rattle.labelling_answers.specs.declared.SideRefusal.{SideRefusal};
ghost use Rattle.invariants.specs.declared.Numbers.{Numbers};
ghost use Rattle.diagrams.specs.Check.{CheckPromise, AllOne};
ghost use Rattle.labelling_operations.specs.Promises.{RelabelPromise, CompareRootedPromise, CompareUnrootedPromise, SymmetriesPromise, KeptPromise};
ghost use Rattle.invariants.specs.Promises.{InvariantsPromise};
ghost use Rattle.kaldvemir_answers.specs.Answers as answers;

use kaldvemir_answers::{number_of, tell, tell_comparison, tell_invariants, tell_kept};

#[unsafe(no_mangle)]
pub extern "C" fn kaldvemir_check(s0: &[u16], s1: &[u16], root: u64) -> u16
    ensures { (a : Result (Unit {0}) Refusal) × CheckPromise s0.now s1.now root a × (result ≡ answers.refusal_number a) }
{
    number_of(diagrams::check(s0, s1, root))
}

#[unsafe(no_mangle)]
pub extern "C" fn kaldvemir_all_reached(marks: &[u8]) -> bool
    ensures { (result ≡ true) ↔ AllOne marks.now }
{
    diagrams::all_reached(marks)
}

#[unsafe(no_mangle)]
pub extern "C" fn kaldvemir_relabel(
    s0: &[u16],
    s1: &[u16],
    root: u64,
    t0: &mut [u16],
    t1: &mut [u16],
    word: &mut [u16],
    length: &mut u64,
) -> u16
    ensures { (a : Result ℕ Refusal)
        × RelabelPromise s0.now s1.now root t0.old t1.old word.old t0.new t1.new word.new a
        × (result ≡ answers.refusal_number a)
        × (length.new ≡ answers.relabel_length a length.old) }
{
    let a = labelling_operations::relabel(s0, s1, root, t0, t1, word);
    tell(a.map(u64::from), length)
}

#[unsafe(no_mangle)]
pub extern "C" fn kaldvemir_compare_rooted(
    s0: &[u16],
    s1: &[u16],
    r: u64,
    t0: &[u16],
    t1: &[u16],
    q: u64,
    same: &mut u64,
    side: &mut u64,
) -> u16
    ensures { (a : Result Bool SideRefusal)
        × CompareRootedPromise s0.now s1.now r t0.now t1.now q a
        × (result ≡ answers.compare_number a)
        × (same.new ≡ answers.compare_same a same.old)
        × (side.new ≡ answers.compare_side a side.old) }
{
    let a = labelling_operations::compare_rooted(s0, s1, r, t0, t1, q);
    tell_comparison(a, same, side)
}

#[unsafe(no_mangle)]
pub extern "C" fn kaldvemir_compare_unrooted(
    s0: &[u16],
    s1: &[u16],
    r: u64,
    t0: &[u16],
    t1: &[u16],
    q: u64,
    same: &mut u64,
    side: &mut u64,
) -> u16
    ensures { (a : Result Bool SideRefusal)
        × CompareUnrootedPromise s0.now s1.now r t0.now t1.now q a
        × (result ≡ answers.compare_number a)
        × (same.new ≡ answers.compare_same a same.old)
        × (side.new ≡ answers.compare_side a side.old) }
{
    let a = labelling_operations::compare_unrooted(s0, s1, r, t0, t1, q);
    tell_comparison(a, same, side)
}

#[unsafe(no_mangle)]
pub extern "C" fn kaldvemir_symmetries(s0: &[u16], s1: &[u16], root: u64, count: &mut u64) -> u16
    ensures { (a : Result ℕ Refusal)
        × SymmetriesPromise s0.now s1.now root a
        × (result ≡ answers.refusal_number a)
        × (count.new ≡ answers.symmetries_count a count.old) }
{
    let a = labelling_operations::symmetries(s0, s1, root);
    tell(a.map(u64::from), count)
}

#[unsafe(no_mangle)]
pub extern "C" fn kaldvemir_kept(s0: &[u16], s1: &[u16], root: u64, kept: &mut u64) -> u16
    ensures { (a : Result Bool Refusal)
        × KeptPromise s0.now s1.now root a
        × (result ≡ answers.refusal_number a)
        × (kept.new ≡ answers.kept_mark a kept.old) }
{
    tell_kept(labelling_operations::kept(s0, s1, root), kept)
}

#[unsafe(no_mangle)]
pub extern "C" fn kaldvemir_invariants(
    s0: &[u16],
    s1: &[u16],
    root: u64,
    e2: &mut u16,
    e3: &mut u16,
    c: &mut u16,
    t: &mut i32,
    level: &mut u64,
) -> u16
    ensures { (a : Result Numbers Refusal)
        × InvariantsPromise s0.now s1.now root a
        × (result ≡ answers.refusal_number a)
        × (e2.new ≡ answers.invariants_e2 a e2.old)
        × (e3.new ≡ answers.invariants_e3 a e3.old)
        × (c.new ≡ answers.invariants_c a c.old)
        × (t.new ≡ answers.invariants_t a t.old)
        × (level.new ≡ answers.invariants_level a level.old) }
{
    let a = invariants::invariants(s0, s1, root);
    tell_invariants(a, e2, e3, c, t, level)
}
