// What is lent of a calculation line.
ghost use Rattle.records.specs.Found.{Words32};

/// The words of a line's steps, the types that these point to, the places of the earlier lines' types, and the numbers of names for the steps' variables.
#[derive(Clone, Copy)]
pub struct Line<'a> {
    pub steps: &'a [u32],
    pub types: &'a [u32],
    pub earlier: &'a [u32],
    pub lent: &'a [u32],
    ghost words: { Words32 types.now },
}
