//! What a script is answered.

use std::marker::Model;

/// What a script is answered: the text that it prints, and its status.
#[derive(Drop)]
pub struct Reply {
    pub text: Vec<u8>,
    pub status: u8,
}

impl Model for Reply {
    ghost use Rattle.word_model.specs.Answers.{Answer};

    ghost Value = { Answer };

    ghost view = { λ r. record { text = r.text.items; status = r.status } };
}
