// What it is to be a linked cell.
ghost use Rattle.std.specs.Prelude.{◌≡◌, ℕ, Option};

// A cell that holds a link to another cell of its array, or none, and beside it its load.
pub trait Linked: Copy {
    type Load;

    ghost linkof: { Self → Option ℕ };

    ghost loadof: { Self → Self.Load };

    fn link(&self) -> Option<u16>
        ensures { result ≡ linkof self.now };

    // A link written is the link read, and the load is left alone.
    fn set_link(&mut self, to: Option<u16>)
        ensures link { linkof self.new ≡ to }
        ensures load { loadof self.new ≡ loadof self.old };
}
