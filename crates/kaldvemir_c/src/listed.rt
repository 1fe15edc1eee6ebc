// Listed diagrams, 1 to 50 edges: counts and positions, and the plain walk.
ghost use Rattle.std.specs.Prelude.{◌≡◌, Result, ℕ};
ghost use Rattle.refusals.specs.declared.Refusal.{Refusal};
ghost use Rattle.listing_ranking.specs.Promises.{CountPromise, DiagramAtPromise, PositionPromise};
ghost use Rattle.listing_plain_walk.specs.Promises.{PlainWalkPromise};
ghost use Rattle.run_kept_count.specs.Promises.{KeptCountPromise};
ghost use Rattle.kaldvemir_answers.specs.Answers as answers;

#[unsafe(no_mangle)]
pub extern "C" fn kaldvemir_count(size: u64, count: &mut u64) -> u16
    ensures { (a : Result ℕ Refusal) × CountPromise size a × (result ≡ answers.refusal_number a) × (count.new ≡ answers.count_total a count.old) }
{
    kaldvemir::listed::kaldvemir_count(size, count)
}

#[unsafe(no_mangle)]
pub extern "C" fn kaldvemir_kept_count(size: u64, kept: &mut u64) -> u16
    ensures { (a : Result ℕ Refusal) × KeptCountPromise size a × (result ≡ answers.refusal_number a) × (kept.new ≡ answers.count_total a kept.old) }
{
    kaldvemir::listed::kaldvemir_kept_count(size, kept)
}

#[unsafe(no_mangle)]
pub extern "C" fn kaldvemir_diagram_at(
    size: u64,
    position: u64,
    s0: &mut [u16],
    s1: &mut [u16],
    word: &mut [u16],
    length: &mut u64,
) -> u16
    ensures { (a : Result ℕ Refusal)
        × DiagramAtPromise size position s0.old s1.old word.old s0.new s1.new word.new a
        × (result ≡ answers.refusal_number a)
        × (length.new ≡ answers.entry_length a length.old) }
{
    kaldvemir::listed::kaldvemir_diagram_at(size, position, s0, s1, word, length)
}

#[unsafe(no_mangle)]
pub extern "C" fn kaldvemir_position(s0: &[u16], s1: &[u16], root: u64, position: &mut u64) -> u16
    ensures { (a : Result ℕ Refusal)
        × PositionPromise s0.now s1.now root a
        × (result ≡ answers.refusal_number a)
        × (position.new ≡ answers.located_position a position.old) }
{
    kaldvemir::listed::kaldvemir_position(s0, s1, root, position)
}

#[unsafe(no_mangle)]
pub extern "C" fn kaldvemir_plain_walk(size: u64, words: &mut [u16], count: &mut u64) -> u16
    ensures { (a : Result ℕ Refusal)
        × PlainWalkPromise size words.old words.new a
        × (result ≡ answers.refusal_number a)
        × (count.new ≡ answers.walk_count a count.old) }
{
    kaldvemir::listed::kaldvemir_plain_walk(size, words, count)
}
