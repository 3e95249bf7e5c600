// The number that stands for an object in an archive.
ghost use Rattle.std.specs.Prelude.{◌≡◌, ℕ};

#[derive(Clone, Copy, PartialEq, Eq, Debug)]
pub struct Uid {
    value: u64,
}

impl Uid {
    pub fn new(value: u64) -> Uid
        ensures { result.value ≡ value }
    {
        Uid { value }
    }

    pub fn get(self) -> u64
        ensures { result ≡ self.value }
    {
        self.value
    }
}
