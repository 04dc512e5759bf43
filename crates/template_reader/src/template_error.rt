//! The faults of templates.
use std::alloc::AllocError;

/// What is wrong with a template, or that memory ran out. For one tag the first kind in this order
/// is answered.
#[derive(Clone, Copy, Debug, Drop, PartialEq, Eq)]
pub enum TemplateKind {
    /// What is before the first line `+++` is no TOML. Its place is 0.
    BadFront,
    /// A backslash directly before a tag, in text. Its place is that of the backslash.
    Escape,
    /// A tag without an end.
    Unclosed,
    /// A tag that says nothing the grammar knows.
    BadTag,
    /// An else or an end where no block is begun, or an end of another name than the innermost
    /// block's.
    NotBegun,
    /// A second else of a block.
    TwoElse,
    /// `this`, `@key` or `@index` outside the first part of every each.
    NotInEach,
    /// A block within 32 blocks.
    TooDeep,
    /// At the end of the template a block is still begun. The place is that of the innermost one's tag.
    NeverClosed,
    /// Out of memory. Its place is 0.
    Memory,
}

/// The first fault of a template. The place counts bytes of the source from 0, and is that of the tag
/// where the kind says no other.
#[derive(Clone, Copy, Debug, Drop, PartialEq, Eq)]
pub struct TemplateError {
    pub kind: TemplateKind,
    pub place: usize,
}

impl From<AllocError> for TemplateError {
    ghost use Rattle.std.specs.Prelude.{◌≡◌};
    ghost use Rattle.template_reader.specs.declared.template_error.TemplateKind.TheVariants.{Memory};

    ghost from_gives = { λ _ e. e ≡ record { kind = Memory; place = 0 } };

    fn from(_: AllocError) -> Self {
        TemplateError {
            kind: TemplateKind::Memory,
            place: 0,
        }
    }
}
