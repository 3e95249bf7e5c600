// A source over a deck of 80-byte cards, of which the first 72 bytes are text.
ghost use Rattle.std.specs.Prelude.{◌≡◌};
ghost use Rattle.source.specs.Decks.{deck_bytes, deck_ending, card_texts, cards_end};

use crate::sources::{ByteSource, Fault};

// The bytes of one card.
const CARD: usize = 80;

// The bytes of a card that are text. The others number the card.
const TEXT: usize = 72;

// The fault of a deck whose last card is cut short.
const RAGGED: Fault = Fault { code: 1 };

#[derive(Drop)]
pub struct Deck<'a> {
    cards: &'a [u8],
    // Where in the deck the next card starts. The slice stays whole, and each card is cut out of the middle of it.
    at: usize,
    // What is left of the text of the card before it.
    text: &'a [u8],
}

impl<'a> Deck<'a> {
    pub fn new(cards: &'a [u8]) -> Deck<'a>
        ensures bytes { deck_bytes result ≡ card_texts cards.now }
        ensures ending { deck_ending result ≡ cards_end cards.now }
    {
        Deck {
            cards,
            at: 0,
            text: &[],
        }
    }
}

impl<'a> ByteSource for Deck<'a> {
    ghost bytes = { deck_bytes };

    ghost ending = { deck_ending };

    fn next(&mut self) -> Result<Option<u8>, Fault> {
        if self.text.is_empty() {
            let left = self.cards.len().saturating_sub(self.at);
            if left == 0 {
                return Ok(None);
            }
            if left < CARD {
                return Err(RAGGED);
            }
            self.text = &self.cards[self.at..self.at + TEXT];
            self.at += CARD;
        }
        let [b, text @ ..] = self.text else {
            unreachable!()
        };
        self.text = text;
        Ok(Some(*b))
    }
}
