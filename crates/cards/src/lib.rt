// Card bytes: 40 in place of each 00, a word of eight at a time, and whether any is 00. A word is one number, in which no loop and no test
// goes over single bytes. The first card byte of a word is the number's highest; but each byte is replaced where it stands, so reading
// fetches and stores its words with the first byte lowest, as the processor does.
#![tactic(auto)]

ghost use Rattle.std.specs.Prelude.{◌≡◌, map};
ghost use Rattle.numbers.specs.BigEndian.{number, bytes_of};
ghost use Rattle.cards.specs.Cards.{blank, is_card_text, cards_put};
ghost use Rattle.cards.specs.Parts.{zero_mark};

// 80 for each byte 00 of eight, and 00 for every other. A byte whose high bit is set, less 1, has lost that bit where the other seven are
// 0, and has borrowed nothing of the byte above it.
fn zero_marks(cards: u64) -> u64
    ensures { result ≡ number (map zero_mark (bytes_of 8 cards)) }
{
    let high = cards | 0x8080_8080_8080_8080;
    let less = high - 0x0101_0101_0101_0101;
    let some = (less | cards) & 0x8080_8080_8080_8080;
    some ^ 0x8080_8080_8080_8080
}

// Eight card bytes as one number, the first highest: 40 for each 00, and every other byte as it was.
pub fn blank_eight(cards: u64) -> u64
    ensures { result ≡ number (map blank (bytes_of 8 cards)) }
{
    cards ^ zero_marks(cards) / 2
}

// Eight card bytes, 40 in place of 00.
fn blanked(cards: [u8; 8]) -> [u8; 8]
    ensures { result ≡ map blank cards }
{
    let word = blank_eight(u64::from_le_bytes(cards));
    word.to_le_bytes()
}

// The card bytes of a reel, 40 in place of 00, in the 400 steps that include/aukpocket.h names. Where either slice isn't of 3,200 bytes, the
// output is left as it was. The library doesn't say what a slice holds after `as_chunks_mut`, so each word is stored at its place.
#[tactic(auto, unfolding(crate::specs::Cards::cards_put))]
pub fn put_cards(cards: &[u8], out: &mut [u8])
    ensures { out.new ≡ cards_put cards.now out.old }
{
    if cards.len() != 3200 || out.len() != 3200 {
        return;
    }
    let (words, _) = cards.as_chunks::<8>();
    for (i, word) in words.iter().enumerate() {
        out[8 * i..8 * i + 8].copy_from_slice(&blanked(*word));
    }
}

// Whether these are 3,200 bytes none of which is 00, as a record's card text is.
#[tactic(auto, unfolding(crate::specs::Cards::is_card_text))]
pub fn is_card_text(cards: &[u8]) -> bool
    ensures { result ≡ is_card_text cards.now }
{
    cards.len() == 3200 && !cards.contains(&0)
}
