// The answer of a call, in the core's words for the same question.

// A text, and its number if it has one.
#[derive(Clone, Copy)]
pub struct Said {
    text: &'static str,
    number: Option<u64>,
}

pub fn says(text: &'static str) -> Option<Said> {
    Some(Said { text, number: None })
}

pub fn tells(text: &'static str, number: u64) -> Option<Said> {
    Some(Said {
        text,
        number: Some(number),
    })
}

// Whether the call was made and gives this answer.
pub fn made(is_made: bool, text: &'static str) -> Option<Said> {
    if is_made { says(text) } else { None }
}

pub fn number_in(text: &str) -> Option<u64> {
    text.parse::<u64>().ok()
}

impl Said {
    pub fn is(&self, answer: &str) -> bool {
        let Some(rest) = answer.strip_prefix(self.text) else {
            return false;
        };
        match self.number {
            Some(number) => number_in(rest) == Some(number),
            None => rest.is_empty(),
        }
    }
}
