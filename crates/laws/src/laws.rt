// What the reading promises as a whole: it is the format's, and it goes token by token.
ghost use Rattle.laws.specs.Laws.{FormatSamples, ReadingIsTheFormat, TokenByToken};

use text::numbers::notation_stands;
use text::utf8::utf8_agrees;

// The reading is the format: bytes are read to their end exactly where they are a list, and as its events.
pub fn reading_is_the_format()
    ensures exactly { ReadingIsTheFormat }
    ensures samples { FormatSamples }
{
    utf8_agrees();
    notation_stands();
}

// What follows some bytes does not change what they stand for.
pub fn token_by_token()
    ensures { TokenByToken }
{
    utf8_agrees();
    notation_stands();
}
