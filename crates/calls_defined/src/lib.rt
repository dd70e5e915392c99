//! What a call by its number says, in words, and the words and bytes of buffers: the calls behind their numbers share this.
#![tactic(auto)]

pub mod inner;
pub mod numbers;
pub mod told;
pub mod words;

/// The two words that some calls take beside their lists.
#[derive(Clone, Copy)]
pub struct Asked {
    pub x: u32,
    pub y: u32,
}

/// The lists of words that come with a call; what each is for stands in docs/SERVE.md.
#[derive(Clone, Copy)]
pub struct Lists<'a> {
    pub a: &'a [u32],
    pub b: &'a [u32],
    pub c: &'a [u32],
    pub d: &'a [u32],
}
