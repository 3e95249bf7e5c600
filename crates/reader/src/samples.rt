// Readings that were computed.
ghost use Rattle.reader.specs.Samples.{Samples};

pub fn samples()
    ensures { Samples }
{}
