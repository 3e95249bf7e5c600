// Sources on top of one another: a deck under two buffers.
ghost use Rattle.std.specs.Prelude.{◌≡◌};
ghost use Rattle.source.specs.Buffers.{buffer_bytes, buffer_ending};
ghost use Rattle.source.specs.Decks.{deck_bytes, deck_ending, card_texts, cards_end};
ghost use Rattle.source.specs.Stacks.{Emptied};

use crate::buffers::Buffer;
use crate::decks::Deck;
use crate::drains::{DrainError, drain};

// A buffer over a buffer over a deck means what the deck means.
pub fn stacked<'a>(cards: &'a [u8]) -> Buffer<Buffer<Deck<'a>>>
    ensures bytes { buffer_bytes (buffer_bytes deck_bytes) result ≡ card_texts cards.now }
    ensures ending { buffer_ending (buffer_ending deck_ending) result ≡ cards_end cards.now }
{
    Buffer::new(Buffer::new(Deck::new(cards)))
}

// The text of a deck, behind what `bytes` holds, and how the deck ends.
pub fn deck_text(cards: &[u8], bytes: &mut Vec<u8>) -> Result<(), DrainError>
    ensures { Emptied bytes.old.items (card_texts cards.now) (cards_end cards.now) result bytes.new.items }
{
    let mut source = stacked(cards);
    drain(&mut source, bytes)
}

#[cfg(test)]
mod tests {
    use super::*;
    use crate::faults::Faulted;
    use crate::slices::SliceSource;
    use crate::sources::{ByteSource, Fault};
    use std::alloc::Global;
    use std::array;
    use std::test::Fail;

    // How many bytes a source gives, the last of them, and how it ends.
    fn drained<S: ByteSource>(heap: Global, source: &mut S) -> (usize, u8, Result<(), DrainError>) {
        let mut bytes = Vec::new(heap);
        let ending = drain(source, &mut bytes);
        let last = bytes.last().copied().unwrap_or(0);
        (bytes.len(), last, ending)
    }

    fn fault(code: u8) -> Result<(), DrainError> {
        Err(DrainError::Fault(Fault { code }))
    }

    #[test]
    fn buffers_at_the_ends_of_a_block(rt: HostRuntime) -> Result<(), Fail> {
        let all: [u8; 65] = array::from_fn(|i| i as u8 + 1);
        for n in [0usize, 1, 63, 64, 65] {
            let part = &all[..n.min(65)];
            let mut plain = Buffer::new(SliceSource::new(part));
            assert_eq!(rt; drained(rt.alloc(), &mut plain), (n, n as u8, Ok(())));
            let mut torn = Buffer::new(Faulted::new(SliceSource::new(part), 9));
            assert_eq!(rt; drained(rt.alloc(), &mut torn), (n, n as u8, fault(9)));
            assert_eq!(rt; torn.next(), Err(Fault { code: 9 }));
        }
        Ok(())
    }

    #[test]
    fn decks_at_the_ends_of_a_card(rt: HostRuntime) -> Result<(), Fail> {
        let mut cards = [b'x'; 160];
        cards[71] = b'a';
        cards[151] = b'b';
        let rows = [
            (0usize, 0usize, 0u8, Ok(())),
            (79, 0, 0, fault(1)),
            (80, 72, b'a', Ok(())),
            (81, 72, b'a', fault(1)),
            (159, 72, b'a', fault(1)),
            (160, 144, b'b', Ok(())),
        ];
        for (len, given, last, ending) in rows {
            let mut source = stacked(&cards[..len.min(160)]);
            assert_eq!(rt; drained(rt.alloc(), &mut source), (given, last, ending));
        }
        Ok(())
    }
}
