// What is told of a body that is found.

// Where a body lies, its number and the place after its closing tag; and how many tags were read after the opening.
#[derive(Clone, Copy)]
pub struct Body {
    pub start: usize,
    pub len: usize,
    pub number: u8,
    pub next: usize,
    pub tags: usize,
}
