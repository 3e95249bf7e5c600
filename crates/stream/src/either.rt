// A source of one of two types, so that sources of both can stand in one slice.
ghost use Rattle.stream.specs.Fits.{side_fit};
ghost use Rattle.stream.specs.Sides.{side};

use crate::errors::Error;
use crate::events::Event;
use crate::sources::EventSource;

#[derive(Drop)]
pub enum Either<L, R> {
    Left(L),
    Right(R),
}

impl<L: EventSource, R: EventSource> EventSource for Either<L, R> {
    ghost means = { side L.EventSource.means R.EventSource.means };

    ghost fit = { side_fit L.EventSource.means R.EventSource.means L.EventSource.fit R.EventSource.fit };

    fn next(&mut self, scratch: &mut [u8]) -> Result<Option<Event>, Error> {
        match self {
            Either::Left(source) => source.next(scratch),
            Either::Right(source) => source.next(scratch),
        }
    }
}
