// Whether a list is a word of some size up to a bound, and of which.
#![tactic(auto)]

ghost use Rattle.std.specs.Prelude.{◌≡◌, ◌≤◌, length};
ghost use Rattle.upto_words.specs.Within.{first_labels, item_labels, labels_of};
ghost use Rattle.upto_size.specs.Sizes.{SizePromise};

use listing_successor::is_word;

// How many labels the first item of a word gives.
fn first_labels(item: u16) -> u16
    ensures { result ≡ first_labels item }
{
    if item == 0 {
        return 1;
    }
    if item == 1 {
        return 3;
    }
    0
}

// How many labels an event gives.
fn item_labels(item: u16) -> u16
    ensures { result ≡ item_labels item }
{
    if item == 1 {
        return 3;
    }
    if item == 2 {
        return 1;
    }
    0
}

// How many labels a word gives.
pub fn labels_of(word: &[u16]) -> u16
    requires { length word.now ≤ 51 }
    ensures { result ≡ labels_of word.now }
{
    if word.len() == 0 {
        return 0;
    }
    let mut labels = first_labels(word[0]);
    for i in 1..word.len() {
        labels += item_labels(word[i]);
    }
    labels
}

// The size of the diagram that a list spells, where it is one of 1..n; otherwise 0.
pub fn word_size(word: &[u16], n: u16) -> u16
    requires { (length word.now ≤ 51) × (n ≤ 50) }
    ensures { SizePromise n word.now result }
{
    let size = labels_of(word);
    if n < size {
        return 0;
    }
    if is_word(word, size) {
        return size;
    }
    0
}
