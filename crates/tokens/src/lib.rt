// Cuts a text into tokens, left to right.
#![tactic(auto)]

pub mod classes;
pub mod faults;
pub mod lexer;
mod scan;
mod words;

// What a token is.
#[derive(Clone, Copy, Default)]
pub enum Code {
    #[default]
    Or,
    And,
    Not,
    Joint,
    Last,
    Exactly,
    AtLeast,
    // A set of seats, as a pattern's number.
    Letters(u8),
    Digit(u8),
    Open,
    Close,
    OpenSquare,
    CloseSquare,
}

// A token, and the place of its first byte in the text.
#[derive(Clone, Copy, Default)]
pub struct Token {
    pub code: Code,
    pub place: usize,
}
