// "A script is read from front to back, once": a reader has the lent script and its place in it. Each function over it takes it apart.
ghost use Rattle.std.specs.Prelude.{◌≡◌};

// A script, and the place that is read next.
#[derive(Drop)]
pub struct Reader<'a> {
    pub script: &'a [u8],
    pub at: usize,
}

impl<'a> Reader<'a> {
    // Returns a reader at the front of a script.
    pub fn at_front(script: &'a [u8]) -> Reader<'a>
        ensures { (result.script ≡ script.entry) × (result.at ≡ 0) }
    {
        Reader { script, at: 0 }
    }

    // Returns the reader, moved on to the place `at`.
    pub fn moved_on(self, at: usize) -> Reader<'a>
        ensures { (result.script ≡ self.entry.script) × (result.at ≡ at) }
    {
        Reader {
            script: self.script,
            at,
        }
    }
}
