//! Parts of a source.
ghost use Rattle.std.specs.Prelude.{◌≡◌, ◌≤◌, length};
ghost use Rattle.template_reader.specs.Bytes.{part};

/// A part of a source: its bytes from `start` on, up to but not including `end`.
#[derive(Clone, Copy, Debug, Drop, PartialEq, Eq)]
pub struct Span {
    pub start: usize,
    pub end: usize,
}

/// The bytes of the source at the span. It copies nothing and takes no memory.
pub fn piece(source: &[u8], span: Span) -> &[u8]
    requires ordered { span.start ≤ span.end }
    requires within { span.end ≤ length source.now }
    ensures { result.now ≡ part span.start span.end source.now }
{
    &source[span.start..span.end]
}
