//! Worked tests, on one thread and on more.

mod algebras;
mod crews;
mod meeting;
mod sealing;
