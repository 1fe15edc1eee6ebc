// Words.
ghost use Rattle.std.specs.Prelude.{◌≡◌, cond, length, Result, ℕ};
ghost use Rattle.refusals.specs.declared.Refusal.{Refusal};
ghost use Rattle.words.specs.Order.{precedes};
ghost use Rattle.words.specs.Letters.{LettersPromise};
ghost use Rattle.words_reading.specs.Read.{reading_answer, ReadPromise};
ghost use Rattle.kaldvemir_answers.specs.Answers as answers;

#[unsafe(no_mangle)]
pub extern "C" fn kaldvemir_read_word(
    word: &[u16],
    s0: &mut [u16],
    s1: &mut [u16],
    size: &mut u64,
) -> u16
    ensures { (a : Result ℕ Refusal)
        × ReadPromise (reading_answer word.now (length s0.old) (length s1.old)) a s0.old s1.old s0.new s1.new
        × (result ≡ answers.refusal_number a)
        × (size.new ≡ answers.read_size a size.old) }
{
    kaldvemir::spelling::kaldvemir_read_word(word, s0, s1, size)
}

// 1 where the first of two words is the smaller one or both are equal, 2 where the second is the smaller: which of the two `lesser` hands
// back.
#[unsafe(no_mangle)]
pub extern "C" fn kaldvemir_lesser<'a>(first: &'a [u16], second: &'a [u16]) -> u16
    ensures { result ≡ cond (precedes second.now first.now) 2 1 }
{
    kaldvemir::spelling::kaldvemir_lesser(first, second)
}

#[unsafe(no_mangle)]
pub extern "C" fn kaldvemir_letters(word: &[u16], letters: &mut [u8], length: &mut u64) -> u16
    ensures { (a : Result ℕ Refusal)
        × LettersPromise word.now letters.old a letters.new
        × (result ≡ answers.refusal_number a)
        × (length.new ≡ answers.letters_length a length.old) }
{
    kaldvemir::spelling::kaldvemir_letters(word, letters, length)
}
