// What is printed of a review: the book's value and winning choice, and what each edit makes of them.

mod laws;
mod lines;
mod text;

pub use laws::one_review_text;
pub use text::review_text;
