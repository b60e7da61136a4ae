// A line collected from chunks. A reader finds the line feed in a chunk, appends the part in front
// of it to the line so far, and goes on with the next chunk.
ghost use Rattle.std.specs.Prelude.{◌≡◌, Some, option_map};
ghost use Rattle.text.specs.Inner.{line_with, kept_with, line_of, is_empty};

// The line under way: its characters stand at the front of `chars`, and `kept` says how many they
// are, or `None` where the line is too long for `chars`, as it then stays. Where the number is past
// the end of `chars`, no line is kept.
#[derive(Clone, Copy)]
pub struct LineBuffer<const N: usize> {
    pub chars: [u8; N],
    pub kept: Option<usize>,
}

impl<const N: usize> LineBuffer<N> {
    // An empty line.
    pub fn new() -> Self
        ensures kept_value { result.kept ≡ Some 0 }
    {
        LineBuffer {
            chars: [0; N],
            kept: Some(0),
        }
    }

    // The line goes on with `more`.
    pub fn append(&mut self, more: &[u8])
        ensures chars_after { self.new.chars ≡ line_with self.old.chars self.old.kept more.now }
        ensures kept_after { self.new.kept ≡ kept_with self.old.chars self.old.kept more.now }
    {
        self.kept = append(&mut self.chars, self.kept, more);
    }

    // The line so far, if it is not too long.
    pub fn line(&self) -> Option<&[u8]>
        ensures { option_map (λ s. s.now) result ≡ line_of self.now.chars self.now.kept }
    {
        self.chars.get(..self.kept?)
    }

    // Whether the line has no character yet.
    pub fn is_empty(&self) -> bool
        ensures { result ≡ is_empty self.now.kept }
    {
        self.kept == Some(0)
    }

    // Begins a new line.
    pub fn clear(&mut self)
        ensures chars_kept { self.new.chars ≡ self.old.chars }
        ensures none_kept { self.new.kept ≡ Some 0 }
    {
        self.kept = Some(0);
    }
}

// The line whose first `kept` characters stand in `line` goes on with `more`; what has no room is
// dropped. The two are no `LineBuffer` here, since this is promised of a slice of any length.
pub fn append(line: &mut [u8], kept: Option<usize>, more: &[u8]) -> Option<usize>
    ensures value { result ≡ kept_with line.old kept more.now }
    ensures line_after { line.new ≡ line_with line.old kept more.now }
{
    let n = kept?;
    strings::places::write(line, n, more);
    let end = n.checked_add(more.len())?;
    (end <= line.len()).then_some(end)
}
