// A byte, a text or a number, written as bytes into a lent buffer at a place; the place after it is handed back. A piece that does not
// fit is left out whole, and the place stays (specs/Pieces.antt).
#![tactic(auto)]

ghost use Rattle.std.specs.Prelude.{◌≡◌, ◌∷◌, []};
ghost use Rattle.words_decimals.specs.Decimals.{decimal};
ghost use Rattle.text_printing_pieces.specs.Pieces.{output, put};

pub fn put_byte(out: &mut [u8], place: usize, byte: u8) -> usize
    ensures { output out.new result ≡ put (byte ∷ []) (output out.old place) }
{
    if out.len() <= place {
        return place;
    }
    out[place] = byte;
    place + 1
}

pub fn put_text(out: &mut [u8], place: usize, text: &[u8]) -> usize
    ensures { output out.new result ≡ put text.now (output out.old place) }
{
    if out.len() < place {
        return place;
    }
    if out.len() - place < text.len() {
        return place;
    }
    let end = place + text.len();
    out[place..end].copy_from_slice(text);
    end
}

pub fn put_number(out: &mut [u8], place: usize, x: u64) -> usize
    ensures { output out.new result ≡ put (decimal x) (output out.old place) }
{
    words_decimals::put_decimal(out, place, x)
}
