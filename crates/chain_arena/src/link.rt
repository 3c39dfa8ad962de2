//! One link, and its number.

/// The number of a link. A number may come again once its link is taken out.
#[derive(Clone, Copy, Debug, PartialEq, Eq)]
pub struct LinkId(pub u32);

/// What is kept of a link: its two numbers, and what it carries.
#[derive(Drop)]
pub struct Link<T> {
    pub left: u32,
    pub right: u32,
    pub item: T,
}
