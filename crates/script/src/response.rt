// What is said to a line.
ghost use Rattle.std.specs.Prelude.{◌≡◌};
ghost use Rattle.std.specs.Option.{option_map};
ghost use Rattle.script.specs.Texts.{readable, spoken, text_of};

// Three cases with names, and no `Result` in an `Option`: a complaint is printed as an answer is, and the script goes on.
#[derive(Drop)]
pub enum Response {
    // The line is blank or a comment.
    Nothing,
    Answer(String),
    Unreadable(String),
}

impl Response {
    // The text to print, if there is one: it is borrowed, as by `as_str`, and so no `From`.
    pub fn text(&self) -> Option<&str>
        ensures { option_map (λ x. x.now) result ≡ text_of (spoken self.now) }
    {
        match self {
            Response::Nothing => None,
            Response::Answer(text) => Some(text.as_str()),
            Response::Unreadable(text) => Some(text.as_str()),
        }
    }

    // Whether the line could be read.
    pub fn is_readable(&self) -> bool
        ensures { result ≡ readable (spoken self.now) }
    {
        match self {
            Response::Nothing | Response::Answer(_) => true,
            Response::Unreadable(_) => false,
        }
    }
}
