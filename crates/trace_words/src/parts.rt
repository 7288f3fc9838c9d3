//! Parts of a text.

ghost use Rattle.std.specs.Prelude.{◌<◌};

/// The parts that are left of a text, in order: what stands between separators.
#[derive(Clone, Copy)]
pub struct Parts<'a> {
    pub(crate) separator: char,
    pub(crate) rest: Option<&'a str>,
    ghost ascii: { separator < 128 },
}
